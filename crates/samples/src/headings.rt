// Outlines whose groups have headings (document 02, §2). Each is written out, record by record, though some look alike: what differs are
// their fields, and a function that makes two of them would take these.
use super::outlines::Sample;
use outline::fields::{is_taxon, price_of};

impl Sample {
    // The same records, each group with this heading.
    pub fn headed(self, heading: u32) -> Self {
        let mut headed = self;
        // by number: a record's fields are read and written by it
        for r in 1..=self.len {
            if !is_taxon(self.bytes(), r) {
                headed = headed.with_price(r, heading);
            }
        }
        headed
    }

    // Whether a group has a price above 0.
    pub fn has_heading(&self) -> bool {
        (1..=self.len).any(|r| !is_taxon(self.bytes(), r) && price_of(self.bytes(), r) != 0)
    }
}

// Tree A with headings, and with record 4 for the taxon that the text has last, between the records of the group's two members.
pub fn interleaved(root: u32, group: u32) -> Sample {
    Sample::new(&[
        [0, 2, 0, root, 0],
        [4, 3, 3, group, 0],
        [5, 0, 4, 3, 11],
        [0, 0, 5, 2, 13],
        [0, 0, 2, 1, 12],
    ])
}

// Two taxa deep below the only member of the root, with a heading for the root and one for that member: 4 records.
pub fn deep_pair(root: u32, group: u32) -> Sample {
    Sample::new(&[
        [0, 2, 9, root, 0],
        [0, 3, 8, group, 0],
        [4, 0, 2, 1, 1],
        [0, 0, 3, 2, 2],
    ])
}

// Two families under one heading each, 8 records: in the first two cousins, plates 1 and 2, in the second plate 3, on a
// longer branch.
pub fn two_families(heading: u32) -> Sample {
    Sample::new(&[
        [0, 2, 0, 0, 0],
        [7, 3, 1, heading, 0],
        [5, 4, 2, 0, 0],
        [0, 0, 3, 1, 1],
        [0, 6, 2, 0, 0],
        [0, 0, 3, 1, 2],
        [0, 8, 5, heading, 0],
        [0, 0, 3, 1, 3],
    ])
}

// Two free taxa of one length, 6 records: plate 1 in a group without a heading, plate 2 in such a group within one that has
// this heading. The root has one too.
pub fn free_pair(length: u32, root: u32, group: u32) -> Sample {
    Sample::new(&[
        [0, 2, 0, root, 0],
        [4, 3, 0, 0, 0],
        [0, 0, length, 0, 1],
        [0, 5, 0, group, 0],
        [0, 6, 0, 0, 0],
        [0, 0, length, 0, 2],
    ])
}
