// Outlines whose taxa are locked (document 02, §4).
use super::outlines::Sample;
use outline::fields::{LOCK, is_taxon, plate_of};

impl Sample {
    // The same records with these taxa locked: the last binary digit stands for the first taxon.
    pub fn locked(self, taxa: u64) -> Self {
        let mut locked = self;
        let mut left = taxa;
        // by number: a record's fields are read and written by it
        for r in 1..=self.len {
            if is_taxon(self.bytes(), r) {
                if left % 2 == 1 {
                    locked = locked.with_plate(r, LOCK + plate_of(self.bytes(), r));
                }
                left /= 2;
            }
        }
        locked
    }
}
