// Outlines by a linear congruential generator: from 4 to 11 records, and at most 6 taxa.
ghost use Rattle.std.specs.Prelude.{◌<◌, ◌≤◌, length};

use super::trial::Trial;
use samples::outlines::Sample;
use std::io;

#[derive(Clone, Copy)]
struct Generator(u64);

// The highest length and the highest heading that are drawn for an outline.
#[derive(Clone, Copy)]
struct Highest {
    length: u16,
    heading: u16,
}

impl Highest {
    // Few lengths have many ties, many have few. Every other outline has headings of 0.
    fn of(k: u32) -> Self {
        let length = match k % 3 {
            0 => 1,
            1 => 3,
            _ => 999,
        };
        let heading = match k % 4 {
            0 => 2,
            2 => 4,
            _ => 0,
        };
        Self { length, heading }
    }
}

impl Generator {
    // The next number, below `most`.
    fn draw(&mut self, most: u32) -> u32
        requires { 0 < most }
        ensures { result < most }
    {
        self.0 = (self.0 % 2147483648 * 1103515245 + 12345) % 2147483648;
        (self.0 / 65536) as u32 % most
    }

    // For each record from the second to the last, n, an earlier one for it to be a member of. Once there are 6 taxa it is one
    // that has no members: it is no taxon from then on, and the member is one. By number, which is what is drawn.
    fn parents(&mut self, n: usize) -> [usize; 12]
        requires { n < 12 }
    {
        let mut parents = [0; 12];
        let mut taxa = 1;
        for q in 2..=n {
            let p = 1 + self.draw(q as u32 - 1) as usize;
            if !parents.contains(&p) {
                parents[q] = p;
            } else if taxa < 6 {
                parents[q] = p;
                taxa += 1;
            } else {
                parents[q] = q - 1;
            }
        }
        parents
    }

    // The fields of record r, by the parents of the records. The price of a taxon is below 5.
    fn fields(&mut self, parents: &[usize], r: usize, highest: Highest) -> [u32; 5]
        requires { (r < length parents.now) × (length parents.now ≤ 12) }
    {
        let later = &parents[r + 1..];
        let next = later.iter().position(|p| *p == parents[r]);
        let next = next.map_or(0, |i| r + 1 + i) as u32;
        let first = parents.iter().position(|p| *p == r).unwrap_or(0) as u32;
        let length = self.draw(highest.length as u32 + 1);
        if first != 0 {
            let heading = self.draw(highest.heading as u32 + 1);
            return [next, first, length, heading, 0];
        }
        [next, 0, length, self.draw(5), r as u32]
    }

    // An outline of n records.
    fn outline(&mut self, n: usize, highest: Highest) -> Sample
        requires { n < 12 }
    {
        let parents = self.parents(n);
        let mut outline = Sample::blank(n);
        for r in 1..=n {
            outline = outline.with(r, self.fields(&parents[..=n], r, highest));
        }
        outline
    }

    // Half of the outlines have locks: some taxa, and at times all.
    fn locks(&mut self, k: u32) -> u64 {
        match k % 8 {
            1 => 63,
            2 | 5 | 6 => self.draw(64) as u64,
            _ => 0,
        }
    }
}

impl<R: Print + AllocGlobal> Trial<'_, R> {
    pub fn random(&mut self) -> io::Result<()> {
        let mut generator = Generator(1);
        for k in 1..=80 {
            let n = 4 + generator.draw(8) as usize;
            let outline = generator.outline(n, Highest::of(k));
            let locks = generator.locks(k);
            let label = format!(in self.rt.alloc(); "random {k}")?;
            self.both(label.as_str(), &outline.locked(locks))?;
        }
        Ok(())
    }
}
