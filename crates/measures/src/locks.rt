// The locked taxa by themselves.
ghost use Rattle.std.specs.Prelude.{◌≡◌, ◌≤◌, length};
ghost use Rattle.lists.specs.Lists.{over};
ghost use Rattle.outline.specs.Outline.{size};
ghost use Rattle.outline.specs.WellFormed.{WellFormed};
ghost use Rattle.diversity.specs.Diversity.{cost};
ghost use Rattle.laws.specs.Locks.{locks, locked_set};
ghost use Rattle.measures.specs.Inner.{blank};
ghost use Rattle.outline.specs.Rules.{most_records};

use super::marks::{marked, measure};
use outline::fields::is_locked;
use outline::limits::MOST_RECORDS;

// Marks them, and no other record; what is past the records is unchanged. That each record has a mark is asked: it is a fact of two slices.
pub fn mark_locked(o: &[u8], marks: &mut [u8])
    requires { size o.now ≤ length marks.old }
    ensures { marks.new ≡ over (locked_set o.now) marks.old }
{
    let n = o.len() / 16;
    for (i, mark) in marks[..n].iter_mut().enumerate() {
        *mark = is_locked(o, i + 1) as u8;
    }
}

// Their marks, in an array that has room because there are at most 127 records.
fn lock_marks(o: &[u8]) -> [u8; MOST_RECORDS]
    requires { size o.now ≤ most_records }
    ensures { result ≡ over (locked_set o.now) blank }
{
    let mut marks = [0; MOST_RECORDS];
    mark_locked(o, &mut marks);
    marks
}

// How many there are.
pub fn locks_of(o: &[u8]) -> u32
    requires { WellFormed o.now }
    ensures { result ≡ locks o.now }
{
    let marks = lock_marks(o);
    marked(o, &marks)
}

// What they cost, with the headings above them: no set that holds them all costs less. Most outlines have none, and then no set is
// measured.
pub fn locked_cost(o: &[u8]) -> u32
    requires { WellFormed o.now }
    ensures { result ≡ cost o.now (locked_set o.now) }
{
    if locks_of(o) == 0 {
        return 0;
    }
    let marks = lock_marks(o);
    measure(o, &marks, 0).cost
}
