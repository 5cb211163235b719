// A refusal of a call.
ghost use Rattle.std.specs.Prelude.{◌≡◌};
ghost use Rattle.refusals.specs.Refusals.{refusal};

// The rows of the table. A number is the place: the lowest record at fault, and 0 where there are fewer marks than records, or one outline has
// more records than the other.
#[derive(Clone, Copy, Debug, PartialEq, Eq)]
pub enum Refusal {
    UnknownWay,
    PartialRecord,
    TooManyRecords,
    CountTooLarge,
    FieldOutOfRange(usize),
    BadLink(usize),
    TooManyTaxa,
    DuplicatePlate(usize),
    BufferTooShort,
    BadText,
    BadPairs,
    LockedTooDear,
    Unwritable(usize),
    BadMarks(usize),
    TooManyPicks,
    BadRevision,
    BadRange(usize),
}

impl Refusal {
    // The refusal's number in the table.
    pub fn number(self) -> u32
        ensures { result ≡ (refusal self).number }
    {
        match self {
            Refusal::UnknownWay => 1,
            Refusal::PartialRecord => 2,
            Refusal::TooManyRecords => 3,
            Refusal::CountTooLarge => 4,
            Refusal::FieldOutOfRange(_) => 5,
            Refusal::BadLink(_) => 6,
            Refusal::TooManyTaxa => 7,
            Refusal::DuplicatePlate(_) => 8,
            Refusal::BufferTooShort => 9,
            Refusal::BadText => 10,
            Refusal::BadPairs => 11,
            Refusal::LockedTooDear => 12,
            Refusal::Unwritable(_) => 13,
            Refusal::BadMarks(_) => 14,
            Refusal::TooManyPicks => 15,
            Refusal::BadRevision => 16,
            Refusal::BadRange(_) => 17,
        }
    }

    // The lowest record at fault, 0 for a refusal of the whole, as the table and the C interface have it.
    pub fn place(self) -> usize
        ensures { result ≡ (refusal self).place }
    {
        match self {
            Refusal::FieldOutOfRange(r)
            | Refusal::BadLink(r)
            | Refusal::DuplicatePlate(r)
            | Refusal::Unwritable(r)
            | Refusal::BadMarks(r)
            | Refusal::BadRange(r) => r,
            _ => 0,
        }
    }
}
