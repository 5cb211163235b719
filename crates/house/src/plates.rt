// The smallest plate at or below each record.
ghost use Rattle.std.specs.Prelude.{◌≡◌};
ghost use Rattle.outline.specs.WellFormed.{WellFormed};
ghost use Rattle.canonical.specs.House.{smaller};
ghost use Rattle.house.specs.Inner.{Smallest, Enterable, Entered};

use outline::fields::{first_of, next_of, plate_of};
use outline::limits::NUMBERS;

// The smaller of two plates, where 0 is none: a group's plate field is 0, and an `Option` would be turned back into it for the definition.
fn smaller(p: u32, q: u32) -> u32
    ensures { result ≡ smaller p q }
{
    if p == 0 {
        q
    } else if q == 0 {
        p
    } else {
        p.min(q)
    }
}

// Enters the smallest plate at or below each record of the chain that begins at record r, and of all below; gives the smallest of all, 0 for
// no record. Document 01 asks for the recursion over both links, which lead to later records; a pass from the last record on would do too.
fn enter_smallest(o: &[u8], r: usize, plates: &mut [u32; NUMBERS]) -> u32
    requires { Enterable o.now r plates.old }
    ensures { Entered o.now r plates.old plates.new result }
{
    if r == 0 {
        return 0;
    }
    let below = enter_smallest(o, first_of(o, r), plates);
    let here = smaller(plate_of(o, r), below);
    plates[r] = here;
    let rest = enter_smallest(o, next_of(o, r), plates);
    smaller(here, rest)
}

// The smallest plate at or below each record, by record number.
pub fn smallest_plates(o: &[u8]) -> [u32; NUMBERS]
    requires { WellFormed o.now }
    ensures { Smallest o.now result }
{
    let mut plates = [0; NUMBERS];
    enter_smallest(o, 1, &mut plates);
    plates
}
