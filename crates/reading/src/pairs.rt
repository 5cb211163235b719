// Prices beside a text: pairs of numbers, plate then price.
ghost use Rattle.std.specs.Prelude.{◌≡◌};
ghost use Rattle.lists.specs.Lists.{anywhere};
ghost use Rattle.outline.specs.Outline.{records, IsRecord};
ghost use Rattle.newick.specs.Pairs.{price_in, pairs_of, paired, bad_pairs};
ghost use Rattle.newick.specs.Inner.{plates_of};
ghost use Rattle.reading.specs.Inner.{by_two, unpaired, unmatched};

use lists::lowest;
use outline::fields::{is_taxon, plate_of};
use outline::rules::holder_of;

// The pairs among numbers; a last number by itself is none.
fn by_two(pairs: &[u32]) -> &[[u32; 2]]
    ensures { result.now ≡ by_two pairs.now }
{
    pairs.as_chunks::<2>().0
}

// The price of the first pair of a plate, 0 if there is none, as a record then has it.
pub fn price_in(pairs: &[u32], plate: u32) -> u32
    ensures { result ≡ price_in pairs.now plate }
{
    by_two(pairs)
        .iter()
        .find(|pair| pair[0] == plate)
        .map_or(0, |pair| pair[1])
}

// How many pairs a plate has.
fn pairs_of(pairs: &[u32], plate: u32) -> usize
    ensures { result ≡ pairs_of pairs.now plate }
{
    // without a branch: `filter` and `count` take longer
    by_two(pairs)
        .iter()
        .map(|pair| (pair[0] == plate) as usize)
        .sum()
}

// Whether record r is a taxon without exactly one pair.
fn is_unpaired(o: &[u8], pairs: &[u32], r: usize) -> bool
    requires { IsRecord o.now r }
    ensures { result ≡ unpaired o.now pairs.now r }
{
    is_taxon(o, r) && pairs_of(pairs, plate_of(o, r)) != 1
}

// Whether a taxon is without exactly one pair.
fn any_unpaired(o: &[u8], pairs: &[u32]) -> bool
    ensures { result ≡ anywhere (unpaired o.now pairs.now) (records o.now) }
{
    lowest(o.len() / 16, |r| is_unpaired(o, pairs, r)).is_some()
}

// Whether a pair is without a taxon.
fn any_unmatched(o: &[u8], pairs: &[u32]) -> bool
    ensures { result ≡ anywhere (unmatched o.now) (paired pairs.now) }
{
    let n = o.len() / 16;
    by_two(pairs)
        .iter()
        .any(|pair| holder_of(o, pair[0], n).is_none())
}

// Whether the pairs are not those of the taxa.
pub fn bad_pairs(o: &[u8], pairs: &[u32]) -> bool
    ensures { result ≡ bad_pairs (plates_of o.now) pairs.now }
{
    if pairs.len() % 2 != 0 {
        return true;
    }
    if any_unpaired(o, pairs) {
        return true;
    }
    any_unmatched(o, pairs)
}
