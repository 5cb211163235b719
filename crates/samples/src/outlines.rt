// Outlines, made record by record as document 01 writes them: next, first, length, price, plate. One that looks like another is
// written out too: what differs are its fields, and a function that makes both would take these.
ghost use Rattle.std.specs.Prelude.{◌≡◌, ◌*◌, ◌≤◌, length};

// At most 129 records, two more than an outline may have. The bytes past them are 0. An array, so that a sample is copied and made
// another with no memory asked for.
#[derive(Clone, Copy)]
pub struct Sample {
    records: [[u8; 16]; 129],
    pub len: usize,
    ghost inside: { len ≤ 129 },
}

// A record's 16 bytes. Each number has its least significant byte first, and of a link only two are written.
fn record_of(fields: [u32; 5]) -> [u8; 16] {
    let [next, first, length, price, plate] = fields;
    let mut record = [0; 16];
    record[0..2].copy_from_slice(&next.to_le_bytes()[0..2]);
    record[2..4].copy_from_slice(&first.to_le_bytes()[0..2]);
    record[4..8].copy_from_slice(&length.to_le_bytes());
    record[8..12].copy_from_slice(&price.to_le_bytes());
    record[12..16].copy_from_slice(&plate.to_le_bytes());
    record
}

// A record with another number of four bytes, from this byte on.
fn with_long(mut record: [u8; 16], at: usize, n: u32) -> [u8; 16]
    requires { at ≤ 12 }
{
    record[at..at + 4].copy_from_slice(&n.to_le_bytes());
    record
}

impl Sample {
    // So many records of zeros.
    pub fn blank(len: usize) -> Self
        requires { len ≤ 129 }
        ensures { result.len ≡ len }
    {
        Self {
            records: [[0; 16]; 129],
            len,
        }
    }

    // The records with these fields.
    pub fn new(fields: &[[u32; 5]]) -> Self
        requires { length fields.now ≤ 129 }
        ensures { result.len ≡ length fields.now }
    {
        let mut records = [[0; 16]; 129];
        for (record, fields) in records.iter_mut().zip(fields) {
            *record = record_of(*fields);
        }
        Self {
            records,
            len: fields.len(),
        }
    }

    // The same with another record r. The bound on r stands in this contract and the next two: callers have plain numbers, so that a
    // type for a record's number would be made from one, under this bound, at each call.
    pub fn with(mut self, r: usize, fields: [u32; 5]) -> Self
        requires { (1 ≤ r) × (r ≤ 129) }
        ensures { result.len ≡ self.len }
    {
        self.records[r - 1] = record_of(fields);
        self
    }

    // The same with another price in record r.
    pub fn with_price(mut self, r: usize, price: u32) -> Self
        requires { (1 ≤ r) × (r ≤ 129) }
        ensures { result.len ≡ self.len }
    {
        self.records[r - 1] = with_long(self.records[r - 1], 8, price);
        self
    }

    // The same with another plate field in record r.
    pub fn with_plate(mut self, r: usize, field: u32) -> Self
        requires { (1 ≤ r) × (r ≤ 129) }
        ensures { result.len ≡ self.len }
    {
        self.records[r - 1] = with_long(self.records[r - 1], 12, field);
        self
    }

    // The outline.
    pub fn bytes(&self) -> &[u8]
        ensures { length result.now ≡ 16 * self.now.len }
    {
        self.first_bytes(16 * self.len)
    }

    // So many of its bytes and of the zeros past them.
    pub fn first_bytes(&self, bytes: usize) -> &[u8]
        requires { bytes ≤ 2064 }
        ensures { length result.now ≡ bytes }
    {
        &self.records.as_flattened()[..bytes]
    }
}

// An outline that is its root alone.
pub fn one_record(fields: [u32; 5]) -> Sample {
    Sample::new(&[fields])
}

// Tree A of document 01: 5 records.
pub fn tree_a() -> Sample {
    tree_a_with_headings(0, 0)
}

// Tree A with a heading for its root and one for its group.
pub fn tree_a_with_headings(root: u32, group: u32) -> Sample {
    Sample::new(&[
        [0, 2, 0, root, 0],
        [5, 3, 3, group, 0],
        [4, 0, 4, 3, 11],
        [0, 0, 2, 1, 12],
        [0, 0, 5, 2, 13],
    ])
}

// A root of length 0 and one chain of taxa under it, all of one length and price, n records in all. A taxon's plate is its
// record number.
pub fn star(n: u32, length: u32, price: u32) -> Sample
    requires { (2 ≤ n) × (n ≤ 129) }
{
    let mut star = Sample::blank(n as usize).with(1, [0, 2, 0, 0, 0]);
    for r in 2..n {
        star = star.with(r as usize, [r + 1, 0, length, price, r]);
    }
    star.with(n as usize, [0, 0, length, price, n])
}

// Groups one within the other, n records in all: in each a taxon, then the next group. The last record is a taxon in any
// case, so half of the records are taxa, rounded up. Every record has the one length and every taxon the one price. A
// taxon's plate is its record number.
pub fn comb(n: u32, length: u32, price: u32) -> Sample
    requires { (2 ≤ n) × (n ≤ 129) }
{
    let mut comb = Sample::blank(n as usize);
    for r in 1..n {
        let fields = if r % 2 == 1 {
            [0, r + 1, length, 0, 0]
        } else {
            [r + 1, 0, length, price, r]
        };
        comb = comb.with(r as usize, fields);
    }
    comb.with(n as usize, [0, 0, length, price, n])
}

// Six levels of pairs under the root: 127 records, level by level, of which the last 64 are taxa. The two under record r are
// 2r and 2r + 1. Every record has the one length and every taxon the one price. A taxon's plate is its record number.
pub fn pairs(length: u32, price: u32) -> Sample {
    let mut pairs = Sample::blank(127);
    for r in 1..128u32 {
        let next = if r % 2 == 0 { r + 1 } else { 0 };
        let fields = if r < 64 {
            [next, 2 * r, length, 0, 0]
        } else {
            [next, 0, length, price, r]
        };
        pairs = pairs.with(r as usize, fields);
    }
    pairs
}
