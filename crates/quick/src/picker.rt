// Picking one taxon: the greatest added diversity, then the fewest added quarters, then the lowest record. The set is marked, with
// its ways; `room` is how many quarters are left. These stay parameters: in a struct of references a clause would say `set.now.marks.now`
// for `marks.now`.
ghost use Rattle.std.specs.Prelude.{◌≡◌, ◌+◌, ◌<◌};
ghost use Rattle.diversity.specs.Diversity.{cost};
ghost use Rattle.quick.specs.Quick.{can_pick, in_hand, picked};
ghost use Rattle.quick.specs.Inner.{pick_of, KnownAt, HandAt, LookAt, LookedAt, HasHeld, NoSums, InHand};

use super::sums::Sums;
use super::ways::Ways;
use measures::is_chosen;
use outline::fields::is_taxon;

// A taxon to be picked, and the quarters that it adds.
#[derive(Clone, Copy)]
pub struct Pick {
    pub taxon: usize,
    pub quarters: u32,
}

// Whether record t is a taxon that is not in the set, still fits with its headings, and adds more than 0.
fn can_pick(o: &[u8], marks: &[u8], room: u32, sums: &Sums, t: usize) -> bool
    requires { KnownAt o.now marks.now sums.now t }
    ensures { result ≡ can_pick o.now (cost o.now marks.now + room) marks.now t }
{
    let open = !is_chosen(marks, t);
    is_taxon(o, t) & (open & ((sums.costs[t] <= room) & (0 < sums.added[t])))
}

// The record in hand, after record t was looked at; 0 for none, as in the definition, which folds over numbers. With an `Option<Pick>`, which
// each turn hands on as three words, 64 picks took 1.2 times as long.
fn in_hand(o: &[u8], marks: &[u8], room: u32, sums: &Sums, hand: usize, t: usize) -> usize
    requires { HandAt o.now marks.now sums.now hand t }
    ensures { result ≡ in_hand o.now (cost o.now marks.now + room) marks.now hand t }
{
    if can_pick(o, marks, room, sums, t) & ((hand == 0) | sums.rather(t, hand)) {
        t
    } else {
        hand
    }
}

// Looks at record r: what it would add, and whether it is taken in hand. One that is held adds nothing, and is passed over.
fn look_at(
    o: &[u8],
    marks: &[u8],
    ways: &Ways,
    room: u32,
    sums: &mut Sums,
    hand: usize,
    r: usize,
) -> usize
    requires { LookAt o.now marks.now ways.now sums.old r × (hand < r) }
    ensures { LookedAt o.now marks.now (cost o.now marks.now + room) sums.new hand r result }
{
    if ways.held[r] {
        return hand;
    }
    sums.add_up(o, &ways.parents, r);
    in_hand(o, marks, room, sums, hand, r)
}

// Looks at all records: the one in hand in the end, 0 for none.
fn look_at_all(o: &[u8], marks: &[u8], ways: &Ways, room: u32, sums: &mut Sums) -> usize
    requires { HasHeld o.now marks.now ways.now × NoSums sums.old }
    ensures { InHand o.now (cost o.now marks.now + room) marks.now sums.new result }
{
    let mut hand = 0;
    for r in 1..=o.len() / 16 {
        hand = look_at(o, marks, ways, room, sums, hand, r);
    }
    hand
}

// The next pick, if there is one.
pub fn next_pick(o: &[u8], marks: &[u8], ways: &Ways, room: u32) -> Option<Pick>
    requires { HasHeld o.now marks.now ways.now }
    ensures { result ≡ pick_of o.now marks.now (picked o.now (cost o.now marks.now + room) marks.now) }
{
    let mut sums = Sums::default();
    let taxon = look_at_all(o, marks, ways, room, &mut sums);
    if taxon == 0 {
        return None;
    }
    Some(Pick {
        taxon,
        quarters: sums.costs[taxon],
    })
}
