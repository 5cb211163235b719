// Writing an outline as text and price pairs.
ghost use Rattle.std.specs.Prelude.{◌≡◌};
ghost use Rattle.lists.specs.Lists.{over};
ghost use Rattle.writing.specs.Text.{outline_text, outline_pairs};
ghost use Rattle.writing.specs.Answer.{call, told, Answered};
ghost use Rattle.writing.specs.Inner.{Writable};

use super::answer::Figures;
use super::chains::put_chain;
use super::pricing::put_pairs;
use super::sizes::bytes_of;
use super::unwritable::unwritable_at;
use outline::check;
use outline::rules::taxa_of;
use refusals::Refusal;
use text::Pen;

// Writes an outline for which no row holds.
fn write_all(outline: &[u8], text: &mut [u8], pairs: &mut [u32])
    requires { Writable outline.now text.old pairs.old }
    ensures text_after { text.new ≡ over (outline_text outline.now) text.old }
    ensures pairs_after { pairs.new ≡ over (outline_pairs outline.now) pairs.old }
{
    let mut pen = Pen {
        buffer: text,
        at: 0,
    };
    put_chain(outline, 1, &mut pen);
    pen.put(b";");
    let mut pen = Pen {
        buffer: pairs,
        at: 0,
    };
    put_pairs(outline, 1, &mut pen);
}

// Writes an outline as text and price pairs, plate then price. The sizes are counted before anything is written.
pub fn write(outline: &[u8], text: &mut [u8], pairs: &mut [u32]) -> Result<Figures, Refusal>
    ensures { Answered
        (call outline.now text.old pairs.old)
        (told result) text.new pairs.new }
{
    check(outline)?;
    if let Some(r) = unwritable_at(outline) {
        return Err(Refusal::Unwritable(r));
    }
    let bytes = bytes_of(outline) + 1;
    let taxa = taxa_of(outline);
    if text.len() < bytes || pairs.len() < 2 * taxa {
        return Err(Refusal::BufferTooShort);
    }
    write_all(outline, text, pairs);
    Ok(Figures { bytes, pairs: taxa })
}
