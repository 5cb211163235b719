// What a call leaves in a caller's buffers.
ghost use Rattle.std.specs.Prelude.{◌≡◌, take, drop, not, count_by};

// The first n of these, or all where there are not so many.
pub fn front<T>(cells: &[T], n: usize) -> &[T]
    ensures { result.now ≡ take n cells.now }
{
    &cells[..n.min(cells.len())]
}

// How many from one on are not as they were.
pub fn changed<T: PartialEq + Copy>(cells: &[T], from: usize, was: T) -> usize
    ensures { result ≡ count_by (λ x. not (T.eq x was)) (drop from cells.now) }
{
    cells.iter().skip(from).filter(|x| **x != was).count()
}
