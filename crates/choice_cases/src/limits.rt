// Case F of document 01: each limit passes, and one more is refused.
use super::show::{Call, Sizes};
use samples::outlines::{comb, one_record, star};
use std::io;

pub fn lengths(rt: &(impl Print + AllocGlobal)) -> io::Result<()> {
    let most = one_record([0, 0, 1000000, 1, 7]);
    Call::new(most.bytes(), 1, 0).case(rt, "length 1,000,000")?;
    let more = one_record([0, 0, 1000001, 1, 7]);
    Call::new(more.bytes(), 1, 0).case(rt, "length 1,000,001")?;
    let long = comb(127, 1000000, 0);
    Call::new(long.bytes(), 0, 0).both(rt, "127 records of length 1,000,000")
}

// One taxon, with just the buffers that it takes at count 4,096.
pub fn counts(rt: &(impl Print + AllocGlobal)) -> io::Result<()> {
    let sizes = Sizes {
        marks: 1,
        curve: 8194,
        work: 49164,
    };
    for (label, price, count, way) in [
        ("count 4,096, price 4,096, rooted", 4096, 4096, 0),
        ("count 4,096, price 4,096, unrooted", 4096, 4096, 1),
        ("count 4,097, price 4,096, rooted", 4096, 4097, 0),
        ("count 4,096, price 4,095, rooted", 4095, 4096, 0),
        ("count 4,294,967,295", 4096, 4294967295, 0),
    ] {
        let one = one_record([0, 0, 5, price, 7]);
        Call::new(one.bytes(), count, way)
            .with(sizes)
            .case(rt, label)?;
    }
    Ok(())
}

// The highest price is above any count.
pub fn prices(rt: &(impl Print + AllocGlobal)) -> io::Result<()> {
    let most = one_record([0, 0, 5, 65535, 7]);
    Call::new(most.bytes(), 2, 0).case(rt, "price 65,535")?;
    let more = one_record([0, 0, 5, 65536, 7]);
    Call::new(more.bytes(), 2, 0).case(rt, "price 65,536")
}

// The 127 records are 64 taxa in groups one within the other.
pub fn records(rt: &(impl Print + AllocGlobal)) -> io::Result<()> {
    Call::new(comb(127, 1, 1).bytes(), 2, 0).both(rt, "127 records")?;
    Call::new(comb(128, 1, 1).bytes(), 2, 0).case(rt, "128 records")?;
    Call::new(star(65, 3, 1).bytes(), 2, 0).both(rt, "64 taxa")?;
    Call::new(star(66, 3, 1).bytes(), 2, 0).case(rt, "65 taxa")
}

pub fn sizes(rt: &(impl Print + AllocGlobal)) -> io::Result<()> {
    let one = one_record([0, 0, 5, 1, 7]);
    Call::new(one.first_bytes(0), 1, 0).case(rt, "0 bytes")?;
    Call::new(one.first_bytes(15), 1, 0).case(rt, "15 bytes")?;
    Call::new(one.first_bytes(16), 1, 0).case(rt, "16 bytes")?;
    Call::new(one.first_bytes(17), 1, 0).case(rt, "17 bytes")
}
