// A chain's pairs, plate then price, by recursion over the links.
ghost use Rattle.text.specs.Written.{LongEnough, Put};
ghost use Rattle.writing.specs.Text.{own_pair};
ghost use Rattle.writing.specs.Inner.{chain_pairs, Along};
ghost use Rattle.outline.specs.Outline.{IsRecord};

use outline::fields::{first_of, is_taxon, next_of, plate_of, price_of};
use text::Pen;

// The pair of a taxon; a group has none. Not inlined: the pair is lent from the stack, and with that in its own frame `put_pairs` would keep a frame
// for every record of a chain, where it now goes from member to member in one.
#[inline(never)]
fn put_pair(o: &[u8], r: usize, pen: &mut Pen<u32>)
    requires fact { IsRecord o.now r }
    requires long_enough { LongEnough (own_pair o.now r) pen.old }
    ensures { Put (own_pair o.now r) pen.old pen.new }
{
    if is_taxon(o, r) {
        pen.put(&[plate_of(o, r), price_of(o, r)]);
    }
}

// The pairs of the chain that a link begins: none for 0. A walk beside that of `put_chain`, which says why.
pub fn put_pairs(o: &[u8], r: usize, pen: &mut Pen<u32>)
    requires along { Along o.now r }
    requires long_enough { LongEnough (chain_pairs o.now r) pen.old }
    ensures { Put (chain_pairs o.now r) pen.old pen.new }
{
    if r == 0 {
        return;
    }
    put_pair(o, r, pen);
    put_pairs(o, first_of(o, r), pen);
    put_pairs(o, next_of(o, r), pen);
}
