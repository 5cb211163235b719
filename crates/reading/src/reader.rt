// Reading a text: the tree, and the outline that is made of it.
ghost use Rattle.std.specs.Prelude.{◌≤◌, length, MatchResult};
ghost use Rattle.newick.specs.Grammar.{most_bytes};
ghost use Rattle.reading.specs.Answer.{call, told, Answered, Numbers};
ghost use Rattle.reading.specs.Inner.{left_of, Fresh, TreeDrafted, NotDrafted, Whole, TreePlaced};

use super::answer::Figures;
use super::draft::Draft;
use super::flaw::Flaw;
use super::pairs::bad_pairs;
use super::scan::{ends, is_tree};
use outline::checker::check_records;
use refusals::Refusal;

const MOST_BYTES: usize = 16384;

// Drafts the records of a text's tree, where nothing is drafted yet. The draft is lent: handed back in the answer, its two kilobytes were copied at
// each step, which was most of the time of a small tree.
fn draft_tree(draft: &mut Draft<'_>) -> Result<(), Flaw>
    requires { Fresh (left_of draft.old.cursor) draft.old.pairs.now draft.old }
    ensures { MatchResult result
        (λ _. TreeDrafted draft.old.pairs.now (left_of draft.old.cursor) draft.new)
        (NotDrafted (left_of draft.old.cursor)) }
{
    let (part, token) = draft.read_part()?;
    if !ends(token, draft.cursor.left()) {
        return Err(Flaw::Malformed);
    }
    draft.draft_record(0, 0, part);
    Ok(())
}

// Judges a drafted outline, and writes it where no row holds.
fn place(o: &[u8], pairs: &[u32], outline: &mut [u8]) -> Result<Figures, Refusal>
    requires { Whole o.now }
    ensures { TreePlaced o.now pairs.now outline.old (told result) outline.new }
{
    if bad_pairs(o, pairs) {
        return Err(Refusal::BadPairs);
    }
    if outline.len() < o.len() {
        return Err(Refusal::BufferTooShort);
    }
    check_records(o)?;
    outline[..o.len()].copy_from_slice(o);
    Ok(Figures {
        records: o.len() / 16,
    })
}

// Reads a text that is not too long.
fn read_short(text: &[u8], pairs: &[u32], outline: &mut [u8]) -> Result<Figures, Refusal>
    requires { length text.now ≤ most_bytes }
    ensures { Answered (call text.now pairs.now outline.old) (told result) outline.new }
{
    let mut draft = Draft::new(text, pairs);
    match draft_tree(&mut draft) {
        Ok(()) => {
            let end = 16 * draft.cursor.records;
            place(&draft.bytes[..end], pairs, outline)
        }
        Err(Flaw::Malformed) => Err(Refusal::BadText),
        // the readers stop there, since their calls nest; the rest of the text decides between 10 and 3
        Err(Flaw::TooMany) if is_tree(text) => Err(Refusal::TooManyRecords),
        Err(Flaw::TooMany) => Err(Refusal::BadText),
    }
}

// Reads a text with its prices to an outline.
pub fn read(text: &[u8], pairs: &[u32], outline: &mut [u8]) -> Result<Figures, Refusal>
    ensures answered { Answered (call text.now pairs.now outline.old) (told result) outline.new }
    ensures numbers { Numbers pairs.now }
{
    if MOST_BYTES < text.len() {
        return Err(Refusal::BadText);
    }
    read_short(text, pairs, outline)
}
