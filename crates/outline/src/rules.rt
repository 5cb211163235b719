// The conditions of refusals 5 to 8, record by record. Why outline and record are no struct stands in fields.rt. Where a condition has
// several parts, `|` and `&` give one value and one goal; with `||` and `&&` each part is a path of its own with a goal of its own, twice to
// four times as many answers here.
ghost use Rattle.std.specs.Prelude.{◌≡◌, ◌≤◌, ◌<◌, get_or};
ghost use Rattle.lists.specs.Lists.{from, lowest as lowest_of, nonzero};
ghost use Rattle.outline.specs.Inner.{counted, Tally};
ghost use Rattle.outline.specs.Outline.{size, IsRecord};
ghost use Rattle.outline.specs.Rules.{bad_field, stray, bad_link, taxa, has_plate, is_duplicate, most_records};

use super::fields::{branch_of, first_of, is_taxon, next_of, plate_field_of, plate_of, price_of};
use super::limits::{MOST_LENGTH, MOST_PRICE, NUMBERS};
use lists::{count, lowest};

// Whether the length, the price or the plate is outside its range.
pub fn bad_field(o: &[u8], r: usize) -> bool
    requires { IsRecord o.now r }
    ensures { result ≡ bad_field o.now r }
{
    let long = MOST_LENGTH < branch_of(o, r);
    let dear = MOST_PRICE < price_of(o, r);
    if is_taxon(o, r) {
        long | (dear | (plate_of(o, r) == 0))
    } else {
        long | (dear | (plate_field_of(o, r) != 0))
    }
}

// Whether a link of record r is not 0 and not a later record's number.
fn is_stray(o: &[u8], r: usize, link: usize) -> bool
    ensures { result ≡ stray o.now r link }
{
    (link != 0) & ((link <= r) | (o.len() / 16 < link))
}

// Adds one to the count of a link; a number that no record can have has no count. By index: of what is written through `get_mut` of a slice
// a proof knows the length alone.
fn count_link(counts: &mut [u16; NUMBERS], link: usize)
    requires { get_or counts.old link 0 < 65535 }
    ensures { counts.new ≡ counted link counts.old }
{
    if link < NUMBERS {
        counts[link] += 1;
    }
}

// How many link fields hold each record number: one pass for all records. Nothing is allocated: the counts are an array by record number,
// which has room because rows 2 and 3 have passed.
pub fn count_links(o: &[u8]) -> [u16; NUMBERS]
    requires { size o.now ≤ most_records }
    ensures { Tally o.now result }
{
    let mut counts = [0; NUMBERS];
    for r in 1..=o.len() / 16 {
        count_link(&mut counts, next_of(o, r));
        count_link(&mut counts, first_of(o, r));
    }
    counts
}

// Whether a link of record r is stray, or it is record 1 and has a next, or it is another and is not named exactly once.
pub fn bad_link(o: &[u8], counts: &[u16; NUMBERS], r: usize) -> bool
    requires is_record { IsRecord o.now r }
    requires tally { Tally o.now counts.now }
    ensures { result ≡ bad_link o.now r }
{
    let next = next_of(o, r);
    let stray = is_stray(o, r, next) | is_stray(o, r, first_of(o, r));
    if r == 1 {
        stray | (next != 0)
    } else {
        stray | (counts[r] != 1)
    }
}

// How many taxa there are.
pub fn taxa_of(o: &[u8]) -> usize
    ensures { result ≡ taxa o.now }
{
    count(o.len() / 16, |r| is_taxon(o, r))
}

// Whether record r is the taxon of a plate.
fn has_plate(o: &[u8], plate: u32, r: usize) -> bool
    requires { IsRecord o.now r }
    ensures { result ≡ has_plate o.now plate r }
{
    (plate_of(o, r) == plate) && is_taxon(o, r)
}

// The lowest of the first n records that is the taxon of a plate, if one is.
pub fn holder_of(o: &[u8], plate: u32, n: usize) -> Option<usize>
    requires { n ≤ size o.now }
    ensures { result ≡ nonzero (lowest_of (has_plate o.now plate) (from 1 n)) }
{
    lowest(n, |r| has_plate(o, plate, r))
}

// Whether the plate of record r is already at an earlier taxon.
pub fn is_duplicate(o: &[u8], r: usize) -> bool
    requires { IsRecord o.now r }
    ensures { result ≡ is_duplicate o.now r }
{
    holder_of(o, plate_of(o, r), r - 1).is_some()
}
