// Walks through the numbers 1 to n, with a test of the caller's. They are `for` loops: with `find` and `filter` it
// is to be shown that the test can be called at each number that the range gives, and no proof of that was found from 1 to n alone.
ghost use Rattle.std.specs.Prelude.{ℕ, Bool, ◌≡◌, ◌≤◌};
ghost use Rattle.lists.specs.Lists.{from, nonzero, one, total};
ghost use Rattle.lists.specs.Lists.{lowest as lowest_of};
ghost use Rattle.lists.specs.Walks.{Decides};

// The lowest of the numbers 1 to n that passes a test, if one does.
pub fn lowest<F: Fn(usize) -> bool>(n: usize, test: F) -> Option<usize>
    requires { (r : ℕ) → 1 ≤ r → r ≤ n → F.pre test r }
    ensures { (holds : ℕ → Bool) → Decides (F.post test) n holds → result ≡ nonzero (lowest_of holds (from 1 n)) }
{
    for r in 1..=n {
        if test(r) {
            return Some(r);
        }
    }
    None
}

// How many of the numbers 1 to n pass a test.
pub fn count<F: Fn(usize) -> bool>(n: usize, test: F) -> usize
    requires { (r : ℕ) → 1 ≤ r → r ≤ n → F.pre test r }
    ensures { (holds : ℕ → Bool) → Decides (F.post test) n holds → result ≡ total (λ r. one (holds r)) (from 1 n) }
{
    let mut sum = 0;
    for r in 1..=n {
        sum += test(r) as usize;
    }
    sum
}
