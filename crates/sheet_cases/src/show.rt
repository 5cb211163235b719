// The line that is printed for a call. A way is a number here: some calls hand over one that is none.
use samples::buffers::{changed, front};
use samples::words::{Listed, Refused};
use sheet::{Figures, sheet};
use std::io;

// What each number of the sheet holds before a call.
const NUMBER: u32 = 2863311530;

// More rows are not printed.
const MANY: u32 = 10;

// A call: an outline, a way and marks, with a sheet of so many numbers.
#[derive(Clone, Copy)]
pub struct Call<'a> {
    outline: &'a [u8],
    way: u32,
    numbers: usize,
    marks: &'a [u8],
}

impl<'a> Call<'a> {
    pub fn new(outline: &'a [u8], way: u32, numbers: usize, marks: &'a [u8]) -> Self {
        Self {
            outline,
            way,
            numbers,
            marks,
        }
    }

    // The part of its line that has the answer.
    pub fn answer(self, rt: &(impl Print + AllocGlobal)) -> io::Result<()> {
        let mut lent = vec![in rt.alloc(); NUMBER; self.numbers]?;
        match sheet(self.outline, self.way, self.marks, &mut lent) {
            Err(refusal) => {
                println!(rt;
                    ": {}, wrong {}",
                    Refused(refusal),
                    changed(&lent, 0, NUMBER)
                )
            }
            Ok(
                Figures {
                    rows,
                    quarters,
                    diversity,
                },
            ) => {
                print!(rt; ": 0 0 {rows} {quarters} {diversity}")?;
                let written = 3 * rows as usize;
                if rows <= MANY {
                    for row in front(&lent, written).chunks(3) {
                        print!(rt; ",{}", Listed(row))?;
                    }
                }
                println!(rt; ", wrong {}", changed(&lent, written, NUMBER))
            }
        }
    }

    // Its line.
    pub fn case(self, rt: &(impl Print + AllocGlobal), label: &str) -> io::Result<()> {
        print!(rt;
            "{label}, way {}, numbers {}, marks{}",
            self.way,
            self.numbers,
            Listed(self.marks)
        )?;
        self.answer(rt)
    }
}
