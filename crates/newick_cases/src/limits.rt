// Limits, and one more. A function is the cases of its limit, so that two look alike; what they share is `long`, `deep` and `starred`.
ghost use Rattle.std.specs.Prelude.{◌≤◌};

use super::show::{SEVEN, case, cases, read_long};
use super::texts::{nested, repeated, star, star_pairs};
use std::io;

// Reading these pieces, each so many times, which have plate 7 alone, to a buffer with room for 129 records.
fn long(rt: &(impl Print + AllocGlobal), label: &str, pieces: &[(&str, usize)]) -> io::Result<()> {
    let text = repeated(rt.alloc(), pieces)?;
    read_long(rt, label, text.as_str(), &SEVEN, 2064)
}

// A text has at most 16,384 bytes.
fn bytes(rt: &(impl Print + AllocGlobal)) -> io::Result<()> {
    let most = [("7;", 1), (" ", 16382)];
    long(rt, "16,384 bytes, blanks after", &most)?;
    let more = [("7;", 1), (" ", 16383)];
    long(rt, "16,385 bytes, blanks after", &more)?;
    let most = [("7", 1), (" ", 16382), (";", 1)];
    long(rt, "16,384 bytes, blanks within", &most)?;
    let more = [("7", 1), (" ", 16382), ("; ", 1)];
    long(rt, "16,385 bytes, blanks within", &more)
}

// Reading plate 7 in groups of one member, with this end.
fn deep(rt: &(impl Print + AllocGlobal), label: &str, records: usize, end: &str) -> io::Result<()>
    requires { 1 ≤ records }
{
    let text = nested(rt.alloc(), records, end)?;
    read_long(rt, label, text.as_str(), &SEVEN, 2064)
}

// The deepest texts. Past 127 records a text still has to be in the grammar.
fn deepest(rt: &(impl Print + AllocGlobal)) -> io::Result<()> {
    deep(rt, "8,192 records", 8192, ";")?;
    deep(rt, "8,192 records, 16,385 bytes", 8192, "; ")?;
    deep(rt, "8,192 records, no semicolon", 8192, "")
}

fn bad_deepest(rt: &(impl Print + AllocGlobal)) -> io::Result<()> {
    let open = [("(", 8191), ("7", 1), (")", 8190), (" ;", 1)];
    long(rt, "8,192 records, a bracket open", &open)?;
    long(rt, "16,384 opening brackets", &[("(", 16384)])?;
    long(rt, "16,384 digits", &[("7", 16384)])
}

// At most 127 records. A bad text gives 10, whatever their number.
fn records(rt: &(impl Print + AllocGlobal)) -> io::Result<()> {
    deep(rt, "127 records", 127, ";")?;
    deep(rt, "127 records, no semicolon", 127, "")?;
    deep(rt, "128 records", 128, ";")?;
    deep(rt, "128 records, no semicolon", 128, "")
}

// Signs after so many records.
fn late_signs(rt: &(impl Print + AllocGlobal)) -> io::Result<()> {
    deep(rt, "128 records, two semicolons", 128, ";;")?;
    deep(rt, "128 records, a label at the end", 128, "8;")?;
    deep(rt, "128 records, a bracket too many", 128, ");")?;
    let empty = [("(", 127), (" ", 1), (")", 127), (";", 1)];
    long(rt, "127 groups without a taxon", &empty)
}

fn late_lengths(rt: &(impl Print + AllocGlobal)) -> io::Result<()> {
    deep(rt, "128 records, the last length", 128, ":5;")?;
    deep(rt, "128 records, a colon alone", 128, ": ;")?;
    deep(rt, "128 records, two colons", 128, "::;")?;
    deep(rt, "128 records, a comma at the top", 128, ",7;")
}

// A star of plates 101 to the last, and this end, with pairs up to this plate.
fn starred(
    rt: &(impl Print + AllocGlobal),
    label: &str,
    last: u32,
    end: &str,
    paired: u32,
) -> io::Result<()> {
    let text = star(rt.alloc(), last, end)?;
    let pairs = star_pairs(rt.alloc(), paired)?;
    read_long(rt, label, text.as_str(), &pairs, 2064)
}

// A star of n taxa has n + 1 records.
fn stars(rt: &(impl Print + AllocGlobal)) -> io::Result<()> {
    starred(rt, "64 taxa", 163, "164);", 164)?;
    starred(rt, "65 taxa", 164, "165);", 165)?;
    starred(rt, "127 records in a star", 225, "226);", 226)?;
    starred(rt, "128 records in a star", 226, "227);", 227)?;
    starred(rt, "128 in a star, no semicolon", 226, "227)", 227)?;
    starred(rt, "128 in a star, no bracket", 226, "227", 227)?;
    starred(rt, "127 in a star and a comma", 226, "   );", 226)
}

// A star of 128 records, with plate 7's pair alone. The digits are those of its last taxon.
fn late_numbers(rt: &(impl Print + AllocGlobal)) -> io::Result<()> {
    for (label, end) in [
        ("128 in a star, 9 digits in the last", "227000000);"),
        ("128 in a star, a blank in the last", "22 000000);"),
        ("128 in a star, 10 digits in the last", "2200000000);"),
    ] {
        let text = star(rt.alloc(), 226, end)?;
        read_long(rt, label, text.as_str(), &SEVEN, 2064)?;
    }
    Ok(())
}

// A length is at most 1,000,000.
fn lengths(rt: &impl Print) -> io::Result<()> {
    let texts = ["7:1000000;", "7:1000001;", "(7):1000000;", "(7):1000001;"];
    cases(rt, &SEVEN, &texts)
}

// The place is the lowest record, in the order of the text.
fn places(rt: &impl Print) -> io::Result<()> {
    let texts = [
        "((7,8):1000001,9);",
        "((7,8:1000001),9);",
        "((7,8),9:1000001);",
        "((7:1000001,8),9:1000001);",
    ];
    cases(rt, &[7, 1, 8, 2, 9, 3], &texts)
}

// A price is at most 65,535.
fn prices(rt: &impl Print) -> io::Result<()> {
    case(rt, "7;", &[7, 65535])?;
    case(rt, "7;", &[7, 65536])?;
    case(rt, "7;", &[7, 4294967295])?;
    case(rt, "((7,8),9);", &[7, 65536, 8, 2, 9, 3])?;
    case(rt, "((7,8),9);", &[9, 65536, 8, 2, 7, 1])?;
    case(rt, "((7,8),9);", &[9, 65536, 7, 1, 8, 65536])
}

pub fn all(rt: &(impl Print + AllocGlobal)) -> io::Result<()> {
    bytes(rt)?;
    deepest(rt)?;
    bad_deepest(rt)?;
    records(rt)?;
    late_signs(rt)?;
    late_lengths(rt)?;
    stars(rt)?;
    late_numbers(rt)?;
    lengths(rt)?;
    places(rt)?;
    prices(rt)
}
