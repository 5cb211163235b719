// The listing of an input. The way is a number of the input, and goes on as it came.
ghost use Rattle.text.specs.Written.{LongEnough, Put, Written};
ghost use Rattle.listing.specs.Printed.{call_with, answer_text, printed};

use super::columns::put_columns;
use super::refusal::put_refusal;
use super::taxa::put_sheet;
use choice::choose;
use outline::fields::short_at;
use refusals::Refusal;
use text::Pen;

// So many bytes are judged: two numbers of two bytes, and 128 records, one more than an outline may have.
pub const MOST_JUDGED: usize = 2052;

// No listing is longer.
pub const MOST_PRINTED: usize = 16384;

// What is lent for a choice: a mark for each record that an outline may have, two numbers for each column up to a page count of 511, and as
// much work as document 01 gives the program; a call that takes more is refused.
const MARKS: usize = 127;

const CURVE: usize = 1024;

const WORK: usize = 6528;

// The listing of an outline, with what is chosen from it.
fn list_outline(pen: &mut Pen<u8>, outline: &[u8], count: u32, way: u32)
    requires { LongEnough (answer_text (call_with outline.now count way)) pen.old }
    ensures { Put (answer_text (call_with outline.now count way)) pen.old pen.new }
{
    let mut marks = [0u8; MARKS];
    let mut curve = [0u32; CURVE];
    let mut work = [0u64; WORK];
    match choose(outline, count, way, &mut marks, &mut curve, &mut work) {
        Err(refusal) => put_refusal(pen, refusal),
        Ok(f) => {
            pen.put_line(&[
                count as u64,
                way as u64,
                f.diversity as u64,
                f.cost as u64,
                f.taxa as u64,
            ]);
            put_columns(pen, &curve, count as usize + 1);
            put_sheet(pen, outline, way, &marks);
        }
    }
}

// Writes what an input prints at the beginning of the buffer, and answers how many bytes it takes.
pub fn list(input: &[u8], buffer: &mut [u8; MOST_PRINTED]) -> usize
    ensures { Written 0 (printed input.now) buffer.old buffer.new result }
{
    let mut pen = Pen { buffer, at: 0 };
    let judged = &input[..MOST_JUDGED.min(input.len())];
    let Some((numbers, outline)) = judged.split_first_chunk::<4>() else {
        put_refusal(&mut pen, Refusal::PartialRecord);
        return pen.at;
    };
    let count = short_at(numbers, 0) as u32;
    let way = short_at(numbers, 2) as u32;
    list_outline(&mut pen, outline, count, way);
    pen.at
}
