// A chain as text, by recursion over the links.
ghost use Rattle.text.specs.Written.{LongEnough, Put};
ghost use Rattle.writing.specs.Inner.{head, tail, chain_text, Along};
ghost use Rattle.outline.specs.Outline.{IsRecord};

use outline::fields::{branch_of, first_of, is_taxon, next_of, plate_of};
use text::Pen;

// What stands before a record's members: the plate of a taxon, the opening bracket of a group.
fn put_head(o: &[u8], r: usize, pen: &mut Pen<u8>)
    requires fact { IsRecord o.now r }
    requires long_enough { LongEnough (head o.now r) pen.old }
    ensures { Put (head o.now r) pen.old pen.new }
{
    if is_taxon(o, r) {
        pen.put_number(plate_of(o, r) as u64);
    } else {
        pen.put(b"(");
    }
}

// What stands after them: the closing bracket of a group, the length, a comma where another record follows.
fn put_tail(o: &[u8], r: usize, pen: &mut Pen<u8>)
    requires fact { IsRecord o.now r }
    requires long_enough { LongEnough (tail o.now r) pen.old }
    ensures { Put (tail o.now r) pen.old pen.new }
{
    if !is_taxon(o, r) {
        pen.put(b")");
    }
    pen.put(b":");
    pen.put_number(branch_of(o, r) as u64);
    if next_of(o, r) != 0 {
        pen.put(b",");
    }
}

// The text of the chain that a link begins: nothing for 0. The pairs have a walk of their own, `put_pairs`. One for both would be handed
// what to put before and after the members; that has no plainer contract, as it would speak of two functions in place of `chain_text`.
pub fn put_chain(o: &[u8], r: usize, pen: &mut Pen<u8>)
    requires along { Along o.now r }
    requires long_enough { LongEnough (chain_text o.now r) pen.old }
    ensures { Put (chain_text o.now r) pen.old pen.new }
{
    if r == 0 {
        return;
    }
    put_head(o, r, pen);
    put_chain(o, first_of(o, r), pen);
    put_tail(o, r, pen);
    put_chain(o, next_of(o, r), pen);
}
