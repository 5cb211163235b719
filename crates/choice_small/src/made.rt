// Outlines made for what is special about them. Each is written out, record by record, though some look alike: what differs are their
// fields, and a function that makes two of them would take these.
use super::trial::Trial;
use samples::headings::{deep_pair, free_pair, two_families};
use samples::outlines::{Sample, comb, one_record, star, tree_a, tree_a_with_headings};
use std::io;

impl<R: Print + AllocGlobal> Trial<'_, R> {
    // An outline without headings as it is, and with a heading of 1 on each group.
    fn twice(&mut self, label: &str, outline: &Sample) -> io::Result<()> {
        self.both(label, outline)?;
        self.both(label, &outline.headed(1))
    }

    // An outline with some of its taxa locked, and with all.
    fn locked_twice(&mut self, label: &str, outline: &Sample, some: u64) -> io::Result<()> {
        self.both(label, &outline.locked(some))?;
        self.both(label, &outline.locked(63))
    }

    // Sets of equal diversity, and of equal cost.
    pub fn tied(&mut self) -> io::Result<()> {
        self.twice("two alike", &star(3, 4, 1))?;
        self.twice("six alike", &star(7, 2, 1))?;
        self.twice("six free", &star(7, 2, 0))?;
        self.twice("six free of no length", &star(7, 0, 0))?;
        self.twice("six of no length", &star(7, 0, 1))?;
        self.twice("six at 4", &star(7, 1, 4))?;
        self.twice("one or two others", &three([4, 2], [2, 1], [2, 1]))?;
        self.twice("two or one other", &three([2, 1], [2, 1], [4, 2]))?;
        self.twice("alike behind a free one", &three([3, 0], [3, 2], [3, 2]))?;
        self.twice("alike before a free one", &three([3, 2], [3, 2], [3, 0]))?;
        self.twice("two groups", &two_groups(2))?;
        self.twice("two groups of no length", &two_groups(0))
    }

    pub fn shaped(&mut self) -> io::Result<()> {
        self.both("one taxon", &one_record([0, 0, 5, 1, 7]))?;
        self.both("one free taxon", &one_record([0, 0, 5, 0, 7]))?;
        self.twice("tree A", &tree_a())?;
        let free = tree_a().with(4, [0, 0, 2, 0, 12]);
        self.twice("tree A with a free taxon", &free)?;
        let dear = tree_a().with(4, [0, 0, 2, 65535, 12]);
        self.twice("tree A with price 65,535", &dear)?;
        self.twice("longest first stops", &three([6, 3], [5, 2], [5, 2]))?;
        self.twice("single members", &single_members())?;
        self.twice("a deep pair", &deep_pair(0, 0))?;
        self.twice("comb", &comb(11, 1, 1))?;
        self.twice("comb of no length", &comb(11, 0, 2))
    }

    pub fn interleaved(&mut self) -> io::Result<()> {
        self.twice("two take turns", &two_interleaved())?;
        self.twice("the lower record is later by links", &lower_is_later())?;
        self.twice("three take turns", &three_interleaved(2))?;
        self.twice("three of no length", &three_interleaved(0))?;
        self.twice("levels take turns", &levels())
    }

    // Headings that differ, and headings above any count.
    pub fn headings(&mut self) -> io::Result<()> {
        self.both("tree A at 0 and 2", &tree_a_with_headings(0, 2))?;
        self.both("tree A at 1 and 2", &tree_a_with_headings(1, 2))?;
        self.both("tree A at 0 and 65,535", &tree_a_with_headings(0, 65535))?;
        self.both("tree A at 65,535 and 0", &tree_a_with_headings(65535, 0))?;
        self.both("a deep pair at 1 and 2", &deep_pair(1, 2))?;
        self.both("two families", &two_families(3))?;
        self.both("a free pair of no length", &free_pair(0, 0, 1))?;
        self.both("a free pair", &free_pair(3, 1, 1))
    }

    // Locks: one, two and all three of tree A, without headings and with; locks below dear headings, and of no length.
    pub fn locks(&mut self) -> io::Result<()> {
        self.locked_twice("tree A, 11 locked", &tree_a(), 1)?;
        self.locked_twice("tree A, 12 and 13 locked", &tree_a(), 6)?;
        let headings = tree_a_with_headings(1, 2);
        self.locked_twice("tree A at 1 and 2, 12 locked", &headings, 2)?;
        let dear = tree_a_with_headings(0, 65535);
        self.locked_twice("tree A at 0 and 65,535, 13 locked", &dear, 4)?;
        let families = two_families(3);
        self.locked_twice("two families, a cousin locked", &families, 2)?;
        self.locked_twice("a deep pair at 1 and 2", &deep_pair(1, 2), 2)?;
        self.locked_twice("a free pair of no length", &free_pair(0, 0, 1), 2)?;
        self.locked_twice("six alike, the last locked", &star(7, 2, 1), 32)?;
        self.locked_twice("six of no length", &star(7, 0, 1), 10)?;
        self.locked_twice("levels take turns", &levels(), 9)
    }
}

// Three taxa under a root of length 0, by length and price.
fn three(x: [u32; 2], y: [u32; 2], z: [u32; 2]) -> Sample {
    Sample::new(&[
        [0, 2, 0, 0, 0],
        [3, 0, x[0], x[1], 1],
        [4, 0, y[0], y[1], 2],
        [0, 0, z[0], z[1], 3],
    ])
}

// Two groups of two taxa each, and a third taxon alone; all taxa alike.
fn two_groups(length: u32) -> Sample {
    Sample::new(&[
        [0, 2, 1, 0, 0],
        [5, 3, length, 0, 0],
        [4, 0, 1, 1, 1],
        [0, 0, 1, 1, 2],
        [8, 6, length, 0, 0],
        [7, 0, 1, 1, 3],
        [0, 0, 1, 1, 4],
        [0, 0, 1, 1, 5],
    ])
}

// Groups one within the other, each of a single member; beside them a taxon.
fn single_members() -> Sample {
    Sample::new(&[
        [0, 2, 1, 0, 0],
        [6, 3, 2, 0, 0],
        [0, 4, 0, 0, 0],
        [0, 5, 4, 0, 0],
        [0, 0, 0, 2, 1],
        [0, 0, 3, 1, 2],
    ])
}

// Two groups whose members take turns.
fn two_interleaved() -> Sample {
    Sample::new(&[
        [0, 2, 0, 0, 0],
        [3, 4, 2, 0, 0],
        [0, 5, 1, 0, 0],
        [6, 0, 1, 1, 1],
        [7, 0, 2, 1, 2],
        [0, 0, 2, 2, 3],
        [0, 0, 1, 2, 4],
    ])
}

// Record 4, in the first group, comes before record 3 by the links, and after it by number.
fn lower_is_later() -> Sample {
    Sample::new(&[
        [0, 2, 1, 0, 0],
        [3, 4, 0, 0, 0],
        [5, 0, 4, 1, 1],
        [6, 0, 4, 1, 2],
        [0, 0, 4, 1, 3],
        [0, 0, 4, 1, 4],
    ])
}

// Three groups of two, whose members take turns.
fn three_interleaved(length: u32) -> Sample {
    Sample::new(&[
        [0, 2, 1, 0, 0],
        [3, 5, length, 0, 0],
        [4, 6, 1, 0, 0],
        [0, 7, length, 0, 0],
        [8, 0, 2, 1, 1],
        [9, 0, 2, 2, 2],
        [10, 0, 2, 1, 3],
        [0, 0, 2, 2, 4],
        [0, 0, 2, 1, 5],
        [0, 0, 2, 2, 6],
    ])
}

// Groups within groups, a record of each level in turn.
fn levels() -> Sample {
    Sample::new(&[
        [0, 2, 2, 0, 0],
        [5, 3, 1, 0, 0],
        [6, 4, 1, 0, 0],
        [7, 0, 3, 2, 1],
        [8, 0, 3, 1, 2],
        [9, 0, 3, 1, 3],
        [0, 10, 1, 0, 0],
        [0, 0, 3, 0, 4],
        [0, 0, 2, 1, 5],
        [0, 0, 1, 1, 6],
    ])
}
