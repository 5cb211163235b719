// The line that is printed for a call.
use reading::{Figures as Reading, read};
use samples::buffers::{changed, front};
use samples::words::{Listed, Refused, Signs};
use std::alloc::{AllocError, Global};
use std::io;
use writing::{Figures, write};

// What each byte of the text's buffer and each number of the pairs' holds before a call.
const BYTE: u8 = 170;

const NUMBER: u32 = 2863311530;

// A longer text is not printed, nor are its pairs.
const LONG: usize = 1000;

// The buffers of a call.
#[derive(Drop)]
struct Buffers {
    text: Vec<u8>,
    pairs: Vec<u32>,
}

// What is written in them: a text, and two numbers for each pair.
#[derive(Clone, Copy, PartialEq)]
struct Written<'a> {
    text: &'a [u8],
    pairs: &'a [u32],
}

impl Buffers {
    fn new(alloc: Global, bytes: usize, numbers: usize) -> Result<Self, AllocError> {
        Ok(Self {
            text: vec![in alloc; BYTE; bytes]?,
            pairs: vec![in alloc; NUMBER; numbers]?,
        })
    }

    fn written(&self, bytes: usize, pairs: usize) -> Written<'_> {
        Written {
            text: front(&self.text, bytes),
            pairs: front(&self.pairs, pairs.saturating_mul(2)),
        }
    }

    // How many bytes and numbers past what is written are not as they were.
    fn wrong(&self, bytes: usize, pairs: usize) -> usize {
        let numbers = pairs.saturating_mul(2);
        changed(&self.text, bytes, BYTE).wrapping_add(changed(&self.pairs, numbers, NUMBER))
    }
}

// Whether a second writing, of this outline, equals the first.
fn is_written_again(alloc: Global, outline: &[u8], first: Written<'_>) -> Result<bool, AllocError> {
    let mut lent = Buffers::new(alloc, 1400, 130)?;
    match write(outline, &mut lent.text, &mut lent.pairs) {
        Err(_) => Ok(false),
        Ok(Figures { bytes, pairs }) => Ok(lent.written(bytes, pairs) == first),
    }
}

// What is written of an outline, and what reading that gives, with a line of its own and no `Display`, which could not write again.
fn say_written(
    rt: &(impl Print + AllocGlobal),
    outline: &[u8],
    written: Written<'_>,
) -> io::Result<()> {
    let Written { text, pairs } = written;
    if text.len() <= LONG {
        print!(rt; " \"{}\", pairs{}", Signs(text), Listed(pairs))?;
    }
    let mut back = [BYTE; 2064];
    match read(text, pairs, &mut back) {
        Err(refusal) => print!(rt; ", read {}", Refused(refusal)),
        Ok(Reading { records }) => {
            let o = front(&back, records.saturating_mul(16));
            let same = if o == outline { "same" } else { "other" };
            let again = is_written_again(rt.alloc(), o, written)?;
            let again = if again { "again" } else { "not again" };
            print!(rt; ", read {records} {same}, {again}")
        }
    }
}

// A call with buffers of so many bytes and numbers, and the part of its line that has the answer.
fn answer(
    rt: &(impl Print + AllocGlobal),
    outline: &[u8],
    bytes: usize,
    numbers: usize,
) -> io::Result<()> {
    let mut lent = Buffers::new(rt.alloc(), bytes, numbers)?;
    match write(outline, &mut lent.text, &mut lent.pairs) {
        Err(refusal) => { println!(rt; ": {}, wrong {}", Refused(refusal), lent.wrong(0, 0)) }
        Ok(Figures { bytes, pairs }) => {
            print!(rt; ": 0 0 {bytes} {pairs}")?;
            say_written(rt, outline, lent.written(bytes, pairs))?;
            println!(rt; ", wrong {}", lent.wrong(bytes, pairs))
        }
    }
}

// Writing an outline to buffers of 100 bytes and 30 numbers.
pub fn case(rt: &(impl Print + AllocGlobal), label: &str, outline: &[u8]) -> io::Result<()> {
    print!(rt; "{label}")?;
    answer(rt, outline, 100, 30)
}

// Writing an outline to buffers of so many bytes and numbers.
pub fn write_to(
    rt: &(impl Print + AllocGlobal),
    label: &str,
    outline: &[u8],
    bytes: usize,
    numbers: usize,
) -> io::Result<()> {
    print!(rt; "{label}, {bytes} bytes, {numbers} numbers")?;
    answer(rt, outline, bytes, numbers)
}
