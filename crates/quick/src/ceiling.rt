// The ceiling of a set: its diversity, and what each other taxon of price at most the page count would add to it by itself.
ghost use Rattle.std.specs.Prelude.{◌≡◌};
ghost use Rattle.lists.specs.Lists.{total};
ghost use Rattle.outline.specs.Outline.{records};
ghost use Rattle.quick.specs.Quick.{ceiling};
ghost use Rattle.quick.specs.Inner.{ceiling_part, LookAt, PartAt, HasHeld, Bounded};

use super::sums::Sums;
use super::ways::Ways;
use measures::is_chosen;
use outline::fields::{is_taxon, price_of};

// What record r counts for. One that is held adds nothing. It shares the first four lines with `look_at`, and one walk for both would take
// a closure that changes what is in hand or the sum: its contract would need that as an invariant, and be longer than both walks.
fn part_at(o: &[u8], marks: &[u8], ways: &Ways, count: u32, sums: &mut Sums, r: usize) -> u32
    requires { LookAt o.now marks.now ways.now sums.old r }
    ensures { PartAt o.now count marks.now sums.new r result }
{
    if ways.held[r] {
        return 0;
    }
    sums.add_up(o, &ways.parents, r);
    let open = !is_chosen(marks, r);
    if is_taxon(o, r) & (open & (price_of(o, r) <= count)) {
        sums.added[r]
    } else {
        0
    }
}

// What all records count for.
fn parts_of(o: &[u8], marks: &[u8], ways: &Ways, count: u32) -> u64
    requires { HasHeld o.now marks.now ways.now }
    ensures { result ≡ total (ceiling_part o.now count marks.now) (records o.now) }
{
    let mut sums = Sums::default();
    let mut sum = 0;
    for r in 1..=o.len() / 16 {
        sum += part_at(o, marks, ways, count, &mut sums, r) as u64;
    }
    sum
}

// The ceiling of a marked set whose diversity is known.
pub fn ceiling_of(o: &[u8], marks: &[u8], ways: &Ways, count: u32, diversity: u32) -> u64
    requires { Bounded o.now marks.now ways.now diversity }
    ensures { result ≡ ceiling o.now count marks.now }
{
    diversity as u64 + parts_of(o, marks, ways, count)
}
