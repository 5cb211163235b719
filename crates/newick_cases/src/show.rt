// The line that is printed for a call.
use reading::{Figures, read};
use samples::buffers::{changed, front};
use samples::words::{Fields, Listed, Refused, Signs};
use std::io;

// What each byte of the buffer holds before the call.
const BYTE: u8 = 170;

// A pair for plate 7.
pub const SEVEN: [u32; 2] = [7, 1];

// Pairs for plates 7 and 8.
pub const SEVEN_AND_EIGHT: [u32; 4] = [7, 1, 8, 2];

// A call, and the part of its line that has the answer. Text, pairs and buffer go on as they come: a struct of them would be made by
// each of three callers and taken apart here, to be no more than the arguments of `read`.
fn answer(rt: &impl Print, text: &[u8], pairs: &[u32], outline: &mut [u8]) -> io::Result<()> {
    match read(text, pairs, outline) {
        Err(refusal) => {
            println!(rt; "{}, wrong {}", Refused(refusal), changed(outline, 0, BYTE))
        }
        Ok(Figures { records }) => {
            print!(rt; "0 0 {records}")?;
            let o = front(outline, records.saturating_mul(16));
            for r in 1..=o.len() / 16 {
                print!(rt; " ({})", Fields { o, r })?;
            }
            println!(rt; ", wrong {}", changed(outline, o.len(), BYTE))
        }
    }
}

// Reading a long text to a buffer of so many bytes. The label says what is special about the call.
pub fn read_long(
    rt: &(impl Print + AllocGlobal),
    label: &str,
    text: &str,
    pairs: &[u32],
    bytes: usize,
) -> io::Result<()> {
    let mut outline = vec![in rt.alloc(); BYTE; bytes]?;
    print!(rt; "{label}: ")?;
    answer(rt, text.as_bytes(), pairs, &mut outline)
}

// Reading to this buffer.
fn read_in(rt: &impl Print, text: &[u8], pairs: &[u32], outline: &mut [u8]) -> io::Result<()> {
    let bytes = outline.len();
    print!(rt;
        "\"{}\", pairs{}, {bytes} bytes: ",
        Signs(text),
        Listed(pairs)
    )?;
    answer(rt, text, pairs, outline)
}

// Reading to a buffer of so many bytes.
pub fn read_to(
    rt: &(impl Print + AllocGlobal),
    text: &[u8],
    pairs: &[u32],
    bytes: usize,
) -> io::Result<()> {
    let mut outline = vec![in rt.alloc(); BYTE; bytes]?;
    read_in(rt, text, pairs, &mut outline)
}

// Reading to a buffer of 160 bytes, which has room for 10 records.
pub fn case(rt: &impl Print, text: &str, pairs: &[u32]) -> io::Result<()> {
    read_in(rt, text.as_bytes(), pairs, &mut [BYTE; 160])
}

// The same for each of these texts.
pub fn cases(rt: &impl Print, pairs: &[u32], texts: &[&str]) -> io::Result<()> {
    for text in texts {
        case(rt, *text, pairs)?;
    }
    Ok(())
}

// Reading to a buffer of 82 bytes, which are printed on a second line.
pub fn read_bytes(rt: &impl Print, text: &str, pairs: &[u32]) -> io::Result<()> {
    let mut outline = [BYTE; 82];
    read_in(rt, text.as_bytes(), pairs, &mut outline)?;
    println!(rt; "bytes{}", Listed(&outline))
}
