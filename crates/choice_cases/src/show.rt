// The line that is printed for a case. A way is a number here: some cases hand over one that is none.
use choice::{Figures, choose};
use samples::buffers::{changed, front};
use samples::ways::{BOTH, Way};
use samples::words::{Listed, Refused};
use std::alloc::{AllocError, Global};
use std::{fmt, io};

// What each byte or number of the buffers holds before the call.
const MARK: u8 = 170;

const POINT: u32 = 2863311530;

const WORD: u64 = 12297829382473034410;

// How many bytes or numbers each of the caller's buffers has, or are written of each.
#[derive(Clone, Copy)]
pub struct Sizes {
    pub marks: usize,
    pub curve: usize,
    pub work: usize,
}

pub const NOTHING: Sizes = Sizes {
    marks: 0,
    curve: 0,
    work: 0,
};

// Enough for 127 records and a count of 2.
const ROOM: Sizes = Sizes {
    marks: 130,
    curve: 40,
    work: 1600,
};

// The caller's buffers.
#[derive(Drop)]
struct Buffers {
    marks: Vec<u8>,
    curve: Vec<u32>,
    work: Vec<u64>,
}

impl Buffers {
    fn new(alloc: Global, sizes: Sizes) -> Result<Self, AllocError> {
        Ok(Self {
            marks: vec![in alloc; MARK; sizes.marks]?,
            curve: vec![in alloc; POINT; sizes.curve]?,
            work: vec![in alloc; WORD; sizes.work]?,
        })
    }

    // How many bytes and numbers past what is written are not as they were.
    fn wrong(&self, written: Sizes) -> usize {
        changed(&self.marks, written.marks, MARK)
            .wrapping_add(changed(&self.curve, written.curve, POINT))
            .wrapping_add(changed(&self.work, written.work, WORD))
    }
}

// Marks, side by side.
#[derive(Clone, Copy)]
struct Marks<'a>(&'a [u8]);

impl fmt::Display for Marks<'_> {
    fn fmt<W: fmt::Write>(&self, f: &mut fmt::Formatter<W>) -> fmt::Result {
        for mark in self.0 {
            write!(f, "{mark}")?;
        }
        Ok(())
    }
}

// The columns of a curve that are unlike the one before them, and the first.
#[derive(Clone, Copy)]
struct Curve<'a>(&'a [u32]);

impl fmt::Display for Curve<'_> {
    fn fmt<W: fmt::Write>(&self, f: &mut fmt::Formatter<W>) -> fmt::Result {
        let mut before: &[u32] = &[];
        for (b, column) in self.0.chunks_exact(2).enumerate() {
            if column != before {
                write!(f, " ({b}{})", Listed(column))?;
            }
            before = column;
        }
        Ok(())
    }
}

// A call: an outline, a page count and a way, with buffers of these sizes.
#[derive(Clone, Copy)]
pub struct Call<'a> {
    outline: &'a [u8],
    count: u32,
    way: u32,
    sizes: Sizes,
}

impl<'a> Call<'a> {
    // With room for 127 records and a count of 2.
    pub fn new(outline: &'a [u8], count: u32, way: u32) -> Self {
        Self {
            outline,
            count,
            way,
            sizes: ROOM,
        }
    }

    // The same call with buffers of these sizes.
    pub fn with(self, sizes: Sizes) -> Self {
        Self { sizes, ..self }
    }

    // What is printed of a selection, and how many bytes and numbers of the buffers it writes.
    fn chosen(self, rt: &impl Print, figures: Figures, lent: &Buffers) -> io::Result<Sizes> {
        let Figures {
            diversity,
            cost,
            taxa,
            spare,
        } = figures;
        let written = Sizes {
            marks: self.outline.len() / 16,
            curve: 2 * (self.count as usize + 1),
            work: lent.work.iter().take_while(|x| **x == 0).count(),
        };
        print!(rt;
            "0 0 {diversity} {cost} {taxa} {spare}, marks {}",
            Marks(front(&lent.marks, written.marks))
        )?;
        print!(rt;
            ", curve{}, work {}",
            Curve(front(&lent.curve, written.curve)),
            written.work
        )?;
        Ok(written)
    }

    // The part of its line that has the answer.
    fn answer(self, rt: &(impl Print + AllocGlobal)) -> io::Result<()> {
        let mut lent = Buffers::new(rt.alloc(), self.sizes)?;
        let answer = choose(
            self.outline,
            self.count,
            self.way,
            &mut lent.marks,
            &mut lent.curve,
            &mut lent.work,
        );
        let written = match answer {
            Ok(figures) => self.chosen(rt, figures, &lent)?,
            Err(refusal) => {
                print!(rt; "{}", Refused(refusal))?;
                NOTHING
            }
        };
        println!(rt; ", wrong {}", lent.wrong(written))
    }

    // Its line.
    pub fn case(self, rt: &(impl Print + AllocGlobal), label: &str) -> io::Result<()> {
        print!(rt; "{label}: ")?;
        self.answer(rt)
    }

    // The lines of the same call in each of the two ways.
    pub fn both(self, rt: &(impl Print + AllocGlobal), label: &str) -> io::Result<()> {
        for way in BOTH {
            print!(rt; "{label}, {way}: ")?;
            let call = Self {
                way: way as u32,
                ..self
            };
            call.answer(rt)?;
        }
        Ok(())
    }
}

// Choosing from an outline in each of these ways, at each of these counts. The words say what is chosen. Label and outline are what tables differ in.
pub fn chosen(
    rt: &(impl Print + AllocGlobal),
    label: &str,
    o: &[u8],
    cases: &[(Way, u32, &str)],
) -> io::Result<()> {
    for (way, count, words) in cases {
        print!(rt; "{label}, {way}, count {count}: {words}: ")?;
        Call::new(o, *count, *way as u32).answer(rt)?;
    }
    Ok(())
}
