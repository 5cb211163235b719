// The marks: 1 at a chosen taxon, else 0.
ghost use Rattle.std.specs.Prelude.{◌≡◌, ◌≤◌, length};
ghost use Rattle.lists.specs.Lists.{over};
ghost use Rattle.outline.specs.Outline.{size};
ghost use Rattle.laws.specs.Numbers.{decode};

use outline::fields::is_taxon;

// Writes the marks of a set, which is a binary number, the last taxon the least significant digit. By number, from the last record:
// of a slice that was changed through `iter_mut()` under `rev` or `zip` a proof knows the length alone. That each record has a mark is asked, as in
// sheet/src/judge.rt: it is a fact of two slices.
pub fn write_marks(o: &[u8], set: u64, marks: &mut [u8])
    requires { size o.now ≤ length marks.old }
    ensures { marks.new ≡ over (decode o.now set) marks.old }
{
    let mut left = set;
    let records = o.len() / 16;
    for r in (1..=records).rev() {
        if is_taxon(o, r) {
            marks[r - 1] = (left % 2) as u8;
            left /= 2;
        } else {
            marks[r - 1] = 0;
        }
    }
}
