// Cases of document 02, §4: a set that fits holds every locked taxon.
use super::show::{Call, Sizes, chosen};
use samples::headings::free_pair;
use samples::outlines::{Sample, comb, star, tree_a, tree_a_with_headings};
use samples::ways::Way::{Rooted, Unrooted};
use std::io;

// Plate 11 costs 3. The columns before that have no set. At 4 plates 12 and 13 would have more, and at less.
pub fn one_lock(rt: &(impl Print + AllocGlobal)) -> io::Result<()> {
    let cases = [
        (Rooted, 2, "refused"),
        (Rooted, 3, "plate 11"),
        (Rooted, 4, "plates 11 and 12"),
        (Rooted, 5, "plates 11 and 13"),
        (Unrooted, 2, "refused"),
        (Unrooted, 3, "plate 11"),
        (Unrooted, 4, "plates 11 and 12"),
    ];
    chosen(rt, "tree A, 11 locked", tree_a().locked(1).bytes(), &cases)
}

// A single taxon has no diversity unrooted, and is chosen all the same.
pub fn alone(rt: &(impl Print + AllocGlobal)) -> io::Result<()> {
    let cases = [
        (Unrooted, 1, "refused"),
        (Unrooted, 2, "plate 13"),
        (Unrooted, 3, "plates 12 and 13"),
    ];
    chosen(rt, "tree A, 13 locked", tree_a().locked(4).bytes(), &cases)
}

pub fn all_locked(rt: &(impl Print + AllocGlobal)) -> io::Result<()> {
    let cases = [
        (Rooted, 5, "refused"),
        (Rooted, 6, "all three"),
        (Unrooted, 5, "refused"),
        (Unrooted, 6, "all three"),
    ];
    chosen(rt, "tree A, all locked", tree_a().locked(7).bytes(), &cases)
}

// Plate 12 costs 1, and 10 with its group's heading, 12 with the root's too.
pub fn under_headings(rt: &(impl Print + AllocGlobal)) -> io::Result<()> {
    let cases = [
        (Rooted, 9, "refused"),
        (Rooted, 10, "plate 12"),
        (Unrooted, 10, "plate 12"),
    ];
    let group = tree_a_with_headings(0, 9).locked(2);
    chosen(rt, "12 locked, group heading 9", group.bytes(), &cases)?;
    let cases = [
        (Rooted, 11, "refused"),
        (Rooted, 12, "plate 12"),
        (Unrooted, 12, "plate 12"),
        (Rooted, 14, "12 and 13"),
    ];
    let both = tree_a_with_headings(2, 9).locked(2);
    chosen(rt, "12 locked, headings 2 and 9", both.bytes(), &cases)
}

// The best diversity is 0, and so is that of the columns before the first set: the spare ends before them.
pub fn no_diversity(rt: &(impl Print + AllocGlobal)) -> io::Result<()> {
    let cases = [
        (Rooted, 0, "refused"),
        (Rooted, 3, "that one"),
        (Unrooted, 3, "that one"),
    ];
    let two = star(3, 0, 1).locked(2);
    chosen(rt, "two of length 0, one locked", two.bytes(), &cases)?;
    let cases = [
        (Rooted, 0, "refused"),
        (Rooted, 1, "both"),
        (Unrooted, 1, "both"),
    ];
    let free = free_pair(0, 0, 1).locked(2);
    chosen(
        rt,
        "free taxa, a lock below heading 1",
        free.bytes(),
        &cases,
    )
}

// Of two alike the locked one is chosen, though it is not the lower record.
pub fn alike(rt: &(impl Print + AllocGlobal)) -> io::Result<()> {
    let cases = [(Rooted, 1, "the second"), (Rooted, 2, "both")];
    let two = star(3, 4, 1).locked(2);
    chosen(rt, "two alike, the second locked", two.bytes(), &cases)
}

// Two taxa with one plate, one of them locked.
pub fn twins(rt: &(impl Print + AllocGlobal)) -> io::Result<()> {
    let twins = tree_a().with(5, [0, 0, 5, 2, 2147483659]);
    Call::new(twins.bytes(), 5, 0).case(rt, "plate 11 at 3, and locked at 5")
}

// Refusal 12 comes after all others.
pub fn order(rt: &(impl Print + AllocGlobal)) -> io::Result<()> {
    let dear = tree_a().locked(1);
    for (label, way, curve) in [
        ("a lock too dear, curve too short", 0, 5),
        ("a lock too dear, buffers long enough", 0, 6),
        ("a lock too dear, way 2", 2, 5),
    ] {
        let sizes = Sizes {
            marks: 5,
            curve,
            work: 84,
        };
        Call::new(dear.bytes(), 2, way).with(sizes).case(rt, label)?;
    }
    let twins = tree_a().with(5, [0, 0, 5, 2, 11]).locked(1);
    Call::new(twins.bytes(), 2, 0).case(rt, "a lock too dear, plates alike")
}

// All 64 taxa locked, in 127 records: at no price, and below headings that cost more than any count together.
pub fn records(rt: &(impl Print + AllocGlobal)) -> io::Result<()> {
    let free = comb(127, 1, 0).locked(u64::MAX);
    let cases = [(Rooted, 2, "all"), (Unrooted, 2, "all")];
    chosen(rt, "64 free taxa, all locked", free.bytes(), &cases)?;
    let dear = free.headed(65535);
    let cases = [(Rooted, 2, "refused")];
    chosen(rt, "the same, headings 65,535", dear.bytes(), &cases)
}

// A locked taxon under the root, with just the buffers that it takes at count 4,096.
pub fn counts(rt: &(impl Print + AllocGlobal)) -> io::Result<()> {
    let sizes = Sizes {
        marks: 2,
        curve: 8194,
        work: 65552,
    };
    for (label, price, count) in [
        ("locked at 4,096, count 4,095: refused", 4096, 4095),
        ("locked at 4,096, count 4,096: the taxon", 4096, 4096),
        ("locked at 65,535, count 4,096: refused", 65535, 4096),
    ] {
        let one = Sample::new(&[[0, 2, 0, 0, 0], [0, 0, 5, price, 2147483655]]);
        Call::new(one.bytes(), count, 0)
            .with(sizes)
            .case(rt, label)?;
    }
    Ok(())
}
