// Choosing beside the trial of every set.
use super::sets::{Tree, Worth};
use choice::{Figures, choose};
use refusals::Refusal;
use samples::buffers::front;
use samples::outlines::Sample;
use samples::ways::{BOTH, Way};
use samples::words::Fields;
use std::fmt::Display;
use std::{fmt, io};

// What each byte or number of the buffers holds before a call.
const UNTOUCHED: u8 = 9;

// How many values were compared and how many were wrong, and how many calls were refused; of how many outlines, and how many
// of these have a heading, and a lock.
#[derive(Clone, Copy, Default)]
pub struct Tally {
    compared: u32,
    wrong: u32,
    refused: u32,
    outlines: u32,
    headed: u32,
    locked: u32,
}

impl fmt::Display for Tally {
    fn fmt<W: fmt::Write>(&self, f: &mut fmt::Formatter<W>) -> fmt::Result {
        let Tally {
            compared,
            wrong,
            refused,
            outlines,
            headed,
            locked,
        } = *self;
        writeln!(
            f,
            "{outlines} outlines, {headed} with headings, {locked} with locks"
        )?;
        write!(
            f,
            "{refused} calls refused, {compared} values compared, {wrong} wrong"
        )
    }
}

// The tally so far, and where what is wrong is printed.
#[derive(Drop)]
pub struct Trial<'a, R: Print> {
    pub rt: &'a R,
    pub tally: Tally,
}

impl<R: Print> Trial<'_, R> {
    // One value more: what it is, at which count, and at which column or record.
    fn value<T: PartialEq + Display + Copy>(
        &mut self,
        what: &str,
        count: u32,
        at: usize,
        want: T,
        got: T,
    ) -> io::Result<()> {
        self.tally.compared = self.tally.compared.wrapping_add(1);
        if want != got {
            self.tally.wrong = self.tally.wrong.wrapping_add(1);
            print!(self.rt; "\n  count {count}, {what} {at}: want {want}, got {got}")?;
        }
        Ok(())
    }

    // The marks, of this set if there is one.
    fn marks(
        &mut self,
        tree: &Tree,
        count: u32,
        best: Option<Worth>,
        marks: &[u8],
    ) -> io::Result<()> {
        for (i, got) in marks.iter().enumerate() {
            match best {
                Some(best) if i < tree.outline.len => {
                    let want = tree.has(best.set, i + 1) as u8;
                    self.value("mark of record", count, i + 1, want, *got)?;
                }
                _ => self.value("mark at", count, i, UNTOUCHED, *got)?,
            }
        }
        Ok(())
    }

    // The curve, column by column. A column that no set fits has a diversity of 0 and the highest cost.
    fn curve(&mut self, count: u32, bests: &[Option<Worth>], curve: &[u32]) -> io::Result<()> {
        for (b, [diversity, cost]) in curve.as_chunks::<2>().0.iter().enumerate() {
            match bests.get(b) {
                Some(best) => {
                    let (most, least) = best.map_or((0, u32::MAX), |x| (x.diversity, x.cost.0));
                    self.value("diversity of column", count, b, most, *diversity)?;
                    self.value("cost of column", count, b, least, *cost)?;
                }
                None => {
                    let what = "number of the curve at";
                    self.value(what, count, 2 * b, UNTOUCHED as u32, *diversity)?;
                    self.value(what, count, 2 * b + 1, UNTOUCHED as u32, *cost)?;
                }
            }
        }
        Ok(())
    }

    // The work, of which so many rows are cleared. A row has 4 numbers to a column.
    fn work(&mut self, count: u32, rows: usize, work: &[u64]) -> io::Result<()> {
        let row = 4 * (count as usize + 1);
        for (i, got) in work.iter().enumerate() {
            let want = if i / row < rows { 0 } else { UNTOUCHED as u64 };
            self.value("number of work at", count, i, want, *got)?;
        }
        Ok(())
    }

    // An answer, where this set is the best, if one fits. The spare is page count minus cost.
    fn answer(
        &mut self,
        count: u32,
        best: Option<Worth>,
        answer: Result<Figures, Refusal>,
    ) -> io::Result<()> {
        match (best, answer) {
            (None, Err(refusal)) => {
                self.value("refusal", count, 0, 12, refusal.number())?;
                self.value("place", count, 0, 0, refusal.place())
            }
            (None, Ok(_)) => self.value("refusal", count, 0, 12, 0),
            (Some(_), Err(_)) => self.value("refused", count, 0, 0, 1),
            (
                Some(best),
                Ok(
                    Figures {
                        diversity,
                        cost,
                        taxa,
                        spare,
                    },
                ),
            ) => {
                self.value("diversity", count, 0, best.diversity, diversity)?;
                self.value("cost", count, 0, best.cost.0, cost)?;
                self.value("taxa", count, 0, best.set.count_ones(), taxa)?;
                self.value("spare", count, 0, count.wrapping_sub(best.cost.0), spare)
            }
        }
    }

    // One call, at a count, with the best sets of the counts up to that. Where no set fits nothing is written. Each buffer has
    // room beyond what 11 records and a count of 44 take.
    fn call(
        &mut self,
        tree: &Tree,
        way: Way,
        count: u32,
        bests: &[Option<Worth>],
    ) -> io::Result<()> {
        // arrays: how long they are is part of what is compared
        let mut marks = [UNTOUCHED; 12];
        let mut curve = [UNTOUCHED as u32; 92];
        let mut work = [UNTOUCHED as u64; 2350];
        let o = tree.outline.bytes();
        let answer = choose(o, count, way as u32, &mut marks, &mut curve, &mut work);
        let best = bests.last().copied().flatten();
        self.answer(count, best, answer)?;
        self.marks(tree, count, best, &marks)?;
        if best.is_none() {
            self.tally.refused = self.tally.refused.wrapping_add(1);
            self.curve(count, &[], &curve)?;
            return self.work(count, 0, &work);
        }
        self.curve(count, bests, &curve)?;
        self.work(count, tree.outline.len + 2, &work)
    }
}

impl<R: Print + AllocGlobal> Trial<'_, R> {
    // One way, at every count up to the cost of all taxa, and up to 44. Ends the line that the outline's name began.
    fn way(&mut self, tree: &Tree, way: Way) -> io::Result<()> {
        let before = self.tally.wrong;
        let most = tree.dearest().min(44);
        let bests = tree.bests(self.rt.alloc(), way, most)?;
        for count in 0..=most {
            self.call(tree, way, count, front(&bests, count as usize + 1))?;
        }
        if self.tally.wrong == before {
            return println!(self.rt; " ok");
        }
        for r in 1..=tree.outline.len {
            let fields = Fields {
                o: tree.outline.bytes(),
                r,
            };
            print!(self.rt; "\n  record {r}: {fields}")?;
        }
        println!(self.rt; "")
    }

    // An outline of at most 11 records and 6 taxa, both ways.
    pub fn both(&mut self, label: &str, outline: &Sample) -> io::Result<()> {
        let tree = Tree::new(*outline);
        let headed = if outline.has_heading() {
            " with headings"
        } else {
            ""
        };
        let locked = if tree.locked != 0 { " with locks" } else { "" };
        for way in BOTH {
            print!(self.rt; "{label}{headed}{locked} {way}")?;
            self.way(&tree, way)?;
        }
        self.tally.outlines = self.tally.outlines.wrapping_add(1);
        self.tally.headed = self.tally.headed.wrapping_add(outline.has_heading() as u32);
        self.tally.locked = self.tally.locked.wrapping_add((tree.locked != 0) as u32);
        Ok(())
    }
}
