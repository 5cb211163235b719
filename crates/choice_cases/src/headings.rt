// Cases of document 02, §2: a group with a chosen taxon below it is paid for, once.
use super::show::{Call, Sizes, chosen};
use samples::headings::{deep_pair, free_pair, two_families};
use samples::outlines::{Sample, comb, star, tree_a_with_headings};
use samples::ways::Way::{Rooted, Unrooted};
use std::io;

// With a heading of 2 plate 12 costs 3, and plate 13 still 2. With one of 1 both cost 2.
pub fn group_heading(rt: &(impl Print + AllocGlobal)) -> io::Result<()> {
    let cases = [
        (Rooted, 2, "plate 13"),
        (Rooted, 3, "plate 13"),
        (Rooted, 8, "all three"),
        (Unrooted, 8, "all three"),
    ];
    let a = tree_a_with_headings(0, 2);
    chosen(rt, "tree A, group heading 2", a.bytes(), &cases)?;
    let cases = [(Rooted, 2, "the lower record")];
    let tied = tree_a_with_headings(0, 1);
    chosen(rt, "tree A, group heading 1", tied.bytes(), &cases)
}

pub fn two_headings(rt: &(impl Print + AllocGlobal)) -> io::Result<()> {
    let cases = [
        (Unrooted, 5, "nothing"),
        (Unrooted, 6, "plates 12 and 13"),
        (Rooted, 9, "all three"),
        (Unrooted, 9, "all three"),
    ];
    let a = tree_a_with_headings(1, 2);
    chosen(rt, "tree A, headings 1 and 2", a.bytes(), &cases)
}

// Two taxa at 1 under a root heading of 3: one costs 4, both cost 5.
pub fn root_heading(rt: &(impl Print + AllocGlobal)) -> io::Result<()> {
    let cases = [
        (Rooted, 3, "nothing"),
        (Rooted, 4, "the lower record"),
        (Rooted, 5, "both"),
        (Unrooted, 4, "nothing"),
        (Unrooted, 5, "both"),
    ];
    let two = star(3, 4, 1).with_price(1, 3);
    chosen(rt, "root heading 3", two.bytes(), &cases)
}

// The two taxa part at record 2. The heading of record 1, above that, is paid for too.
pub fn above_the_parting(rt: &(impl Print + AllocGlobal)) -> io::Result<()> {
    let cases = [
        (Rooted, 6, "both"),
        (Unrooted, 5, "nothing"),
        (Unrooted, 6, "both"),
    ];
    let pair = deep_pair(1, 2);
    chosen(rt, "a pair below headings 1 and 2", pair.bytes(), &cases)
}

pub fn dearer_than_count(rt: &(impl Print + AllocGlobal)) -> io::Result<()> {
    let cases = [(Rooted, 8, "plate 13"), (Unrooted, 8, "nothing")];
    let group = tree_a_with_headings(0, 9);
    chosen(rt, "tree A, group heading 9", group.bytes(), &cases)?;
    let root = tree_a_with_headings(9, 0);
    chosen(
        rt,
        "tree A, root heading 9",
        root.bytes(),
        &[(Rooted, 8, "nothing")],
    )
}

// One taxon of each family is worth more than two cousins. But cousins share a heading.
pub fn cousins(rt: &(impl Print + AllocGlobal)) -> io::Result<()> {
    let cases = [(Rooted, 2, "one of each"), (Unrooted, 2, "one of each")];
    let free = two_families(0);
    chosen(rt, "families without headings", free.bytes(), &cases)?;
    let cases = [
        (Rooted, 5, "cousins"),
        (Unrooted, 5, "cousins"),
        (Rooted, 8, "one of each"),
        (Unrooted, 8, "one of each"),
    ];
    let dear = two_families(3);
    chosen(rt, "families with headings 3", dear.bytes(), &cases)
}

// A free taxon that adds nothing is chosen where every heading above it is free, and nowhere else.
pub fn free_of_no_length(rt: &(impl Print + AllocGlobal)) -> io::Result<()> {
    let free = free_pair(0, 0, 0);
    let cases = [(Rooted, 1, "both"), (Unrooted, 1, "both")];
    chosen(rt, "free taxa of length 0", free.bytes(), &cases)?;
    let group = free_pair(0, 0, 1);
    let cases = [(Rooted, 1, "plate 1"), (Unrooted, 1, "plate 1")];
    chosen(rt, "the same, group heading 1", group.bytes(), &cases)?;
    let root = free_pair(0, 1, 0);
    let cases = [(Rooted, 1, "nothing"), (Unrooted, 1, "nothing")];
    chosen(rt, "the same, root heading 1", root.bytes(), &cases)
}

// One that adds something is chosen where its headings fit.
pub fn free_of_length_3(rt: &(impl Print + AllocGlobal)) -> io::Result<()> {
    let cases = [
        (Rooted, 0, "plate 1"),
        (Unrooted, 0, "plate 1"),
        (Rooted, 1, "both"),
        (Unrooted, 1, "both"),
    ];
    let pair = free_pair(3, 0, 1);
    chosen(rt, "free taxa of length 3, heading 1", pair.bytes(), &cases)
}

// The highest heading is above any count.
pub fn prices(rt: &(impl Print + AllocGlobal)) -> io::Result<()> {
    let cases = [(Rooted, 8, "plate 13"), (Unrooted, 8, "nothing")];
    let group = tree_a_with_headings(0, 65535);
    chosen(rt, "tree A, group heading 65,535", group.bytes(), &cases)?;
    let cases = [(Rooted, 8, "nothing")];
    let root = tree_a_with_headings(65535, 0);
    chosen(rt, "tree A, root heading 65,535", root.bytes(), &cases)?;
    let high_group = tree_a_with_headings(0, 65536);
    Call::new(high_group.bytes(), 8, 0).case(rt, "tree A, group heading 65,536")?;
    let high_root = tree_a_with_headings(65536, 0);
    Call::new(high_root.bytes(), 8, 1).case(rt, "tree A, root heading 65,536")
}

// 63 groups one within the other, a free taxon in each and two in the last. What the second has costs the first heading too.
pub fn records(rt: &(impl Print + AllocGlobal)) -> io::Result<()> {
    let dear = comb(127, 1, 0).headed(65535);
    let cases = [(Rooted, 2, "nothing"), (Unrooted, 2, "nothing")];
    chosen(rt, "127 records, headings 65,535", dear.bytes(), &cases)?;
    let cheap = comb(127, 1, 0).headed(1);
    let cases = [(Rooted, 2, "two"), (Unrooted, 2, "two")];
    chosen(rt, "127 records, headings 1", cheap.bytes(), &cases)
}

// One taxon at 1 under the root, with just the buffers that it takes at count 4,096.
pub fn counts(rt: &(impl Print + AllocGlobal)) -> io::Result<()> {
    let sizes = Sizes {
        marks: 2,
        curve: 8194,
        work: 65552,
    };
    for (label, heading) in [
        ("heading 4,095, price 1, count 4,096: the taxon", 4095),
        ("heading 4,096, price 1, count 4,096: nothing", 4096),
    ] {
        let one = Sample::new(&[[0, 2, 0, heading, 0], [0, 0, 5, 1, 7]]);
        Call::new(one.bytes(), 4096, 0).with(sizes).case(rt, label)?;
    }
    Ok(())
}
