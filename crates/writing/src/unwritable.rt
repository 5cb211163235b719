// Refusal 13, record by record.
ghost use Rattle.std.specs.Prelude.{◌≡◌};
ghost use Rattle.lists.specs.Lists.{lowest as lowest_of, nonzero};
ghost use Rattle.outline.specs.Outline.{records, IsRecord};
ghost use Rattle.newick.specs.Trees.{unwritable};

use lists::lowest;
use outline::fields::{is_locked, is_taxon, plate_of, price_of};

// The largest plate that is written: it has 9 digits.
const MOST_PLATE: u32 = 999999999;

// Whether record r has a heading price, a lock, or a plate of more than 9 digits.
#[tactic(auto, unfolding(newick::specs::Trees::unwritable))]
fn is_unwritable(o: &[u8], r: usize) -> bool
    requires { IsRecord o.now r }
    ensures { result ≡ unwritable o.now r }
{
    (!is_taxon(o, r) && 0 < price_of(o, r)) || is_locked(o, r) || MOST_PLATE < plate_of(o, r)
}

// The lowest such record, if there is one.
pub fn unwritable_at(o: &[u8]) -> Option<usize>
    ensures { result ≡ nonzero (lowest_of (unwritable o.now) (records o.now)) }
{
    lowest(o.len() / 16, |r| is_unwritable(o, r))
}
