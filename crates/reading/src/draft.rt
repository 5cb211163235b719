// The records of a text's tree, as they are drafted.
use super::cursor::Cursor;
use super::pairs::price_in;
use outline::limits::MOST_RECORDS;
use records::Record;
use text::Pen;

// A draft has room for 127 records.
const ROOM: usize = 16 * MOST_RECORDS;

// The fields of a part's record that its text says, as the record has them: its first member, 0 at a taxon, its length, and its plate, 0 at a
// group.
#[derive(Clone, Copy)]
pub struct Part {
    pub first: usize,
    pub length: u32,
    pub plate: u32,
}

// The place of the readers in the text, the prices beside it, and what is written of the records that have begun.
#[derive(Drop)]
pub struct Draft<'a> {
    pub cursor: Cursor<'a>,
    pub pairs: &'a [u32],
    pub bytes: [u8; ROOM],
}

impl<'a> Draft<'a> {
    ghost use Rattle.std.specs.Prelude.{◌≡◌, ◌<◌};
    ghost use Rattle.outline.specs.Rules.{most_records};
    ghost use Rattle.reading.specs.Inner.{price_for, Fresh, Drafted};

    // At the beginning of a text nothing is drafted.
    pub fn new(text: &'a [u8], pairs: &'a [u32]) -> Draft<'a>
        ensures { Fresh text.now pairs.now result }
    {
        let cursor = Cursor {
            text,
            at: 0,
            records: 0,
        };
        Draft {
            cursor,
            pairs,
            bytes: [0; ROOM],
        }
    }

    // The price of a record: a group has none.
    fn price_of(&self, part: Part) -> u32
        ensures { result ≡ price_for self.now.pairs.now part }
    {
        if part.first == 0 {
            return price_in(self.pairs, part.plate);
        }
        0
    }

    // Writes the record after k others.
    pub fn draft_record(&mut self, k: usize, next: usize, part: Part)
        requires { k < most_records }
        ensures { Drafted k next part self.old self.new }
    {
        let price = self.price_of(part);
        let mut pen = Pen {
            buffer: &mut self.bytes,
            at: 16 * k,
        };
        let record = Record {
            next,
            first: part.first,
            branch: part.length,
            price,
            plate: part.plate,
        };
        record.put(&mut pen);
    }
}
