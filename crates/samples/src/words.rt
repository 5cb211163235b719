// What the test programs print of answers, records and buffers.
ghost use Rattle.outline.specs.Outline.{IsRecord};

use outline::fields::{branch_of, first_of, next_of, plate_of, price_of};
use refusals::Refusal;
use std::fmt;

// The number and the place that the table of refusals gives.
#[derive(Clone, Copy)]
pub struct Refused(pub Refusal);

impl fmt::Display for Refused {
    fn fmt<W: fmt::Write>(&self, f: &mut fmt::Formatter<W>) -> fmt::Result {
        write!(f, "{} {}", self.0.number(), self.0.place())
    }
}

// The fields of record r, without the lock.
#[derive(Clone, Copy)]
pub struct Fields<'a> {
    pub o: &'a [u8],
    pub r: usize,
    ghost inside: { IsRecord o.now r },
}

impl fmt::Display for Fields<'_> {
    fn fmt<W: fmt::Write>(&self, f: &mut fmt::Formatter<W>) -> fmt::Result {
        let (o, r) = (self.o, self.r);
        write!(f, "{} {} ", next_of(o, r), first_of(o, r))?;
        write!(
            f,
            "{} {} {}",
            branch_of(o, r),
            price_of(o, r),
            plate_of(o, r)
        )
    }
}

// Numbers, with a blank before each.
#[derive(Drop)]
pub struct Listed<'a, T>(pub &'a [T]);

impl<T: fmt::Display> fmt::Display for Listed<'_, T> {
    fn fmt<W: fmt::Write>(&self, f: &mut fmt::Formatter<W>) -> fmt::Result {
        for x in self.0 {
            write!(f, " {x}")?;
        }
        Ok(())
    }
}

// A text, with the number of each byte that is no sign of print.
#[derive(Clone, Copy)]
pub struct Signs<'a>(pub &'a [u8]);

impl fmt::Display for Signs<'_> {
    fn fmt<W: fmt::Write>(&self, f: &mut fmt::Formatter<W>) -> fmt::Result {
        for byte in self.0 {
            match byte {
                b' '..=b'~' => write!(f, "{}", *byte as char)?,
                _ => write!(f, "<{byte}>")?,
            }
        }
        Ok(())
    }
}
