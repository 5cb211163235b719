// The grammar, clause by clause: what it has, and what it does not. A function is the texts of its clause, so that two look alike; what
// they share is `cases`, and one for both would take the texts.
use super::show::{SEVEN, SEVEN_AND_EIGHT, case, cases, read_to};
use std::io;

// A plate has 1 to 9 digits side by side, leading zeros among them.
fn plates(rt: &impl Print) -> io::Result<()> {
    cases(rt, &SEVEN, &["7;", "000000007;", "0000000007;"])?;
    case(rt, "999999999;", &[999999999, 1])?;
    case(rt, "1000000000;", &[1000000000, 1])?;
    case(rt, "(1234567,890);", &[1234567, 1, 890, 2])
}

// So has a length.
fn lengths(rt: &impl Print) -> io::Result<()> {
    let texts = [
        "7:9;",
        "7:000000005;",
        "7:0000000005;",
        "7:999999999;",
        "7:1000000000;",
    ];
    cases(rt, &SEVEN, &texts)
}

// No blank stands inside a number, and nothing but digits.
fn digits(rt: &impl Print) -> io::Result<()> {
    cases(rt, &[12, 1], &["1 2;", "1\t2;", "1\n2;", "1\r2;", "1_2;"])?;
    cases(rt, &SEVEN, &["7:1 2;"])
}

fn other_signs(rt: &impl Print) -> io::Result<()> {
    cases(
        rt,
        &SEVEN,
        &["+7;", "'7';", "a;", "/;", "7:-5;", "7:5.0;", "7:1e3;"],
    )
}

// Each of the four blanks around every number and every other sign.
fn blanks(rt: &impl Print) -> io::Result<()> {
    let texts = [
        "(7:5,8:6):3;",
        " ( 7 : 5 , 8 : 6 ) : 3 ; ",
        "\t(\t7\t:\t5\t,\t8\t:\t6\t)\t:\t3\t;\t",
        "\n(\n7\n:\n5\n,\n8\n:\n6\n)\n:\n3\n;\n",
        "\r(\r7\r:\r5\r,\r8\r:\r6\r)\r:\r3\r;\r",
        " \t\r\n(7:5, \t\r\n8:6):3;",
    ];
    cases(rt, &SEVEN_AND_EIGHT, &texts)
}

// Bytes that are none.
fn no_blanks(rt: &(impl Print + AllocGlobal)) -> io::Result<()> {
    for byte in [0x00, 0x08, 0x0b, 0x0c, 0x0e, 0x1f, 0x7f, 0xa0] {
        read_to(rt, &[b'(', byte, b'7', b')', b';'], &SEVEN, 160)?;
    }
    Ok(())
}

// A list has at least one part.
fn lists(rt: &impl Print) -> io::Result<()> {
    cases(rt, &SEVEN, &["7:5;", "(7:5);", "((7:5));"])?;
    cases(rt, &SEVEN_AND_EIGHT, &["(7:5,8);", "((7),(8));"])
}

fn empty_lists(rt: &impl Print) -> io::Result<()> {
    cases(rt, &[], &["();", "( );", "():5;"])?;
    cases(rt, &SEVEN, &["(7,());", "(()7);"])
}

fn empty_texts(rt: &impl Print) -> io::Result<()> {
    case(rt, "", &[])?;
    case(rt, "", &SEVEN)?;
    cases(rt, &[], &[" \t\r\n", ";"])
}

// Commas stand between the parts of a list.
fn commas(rt: &impl Print) -> io::Result<()> {
    let texts = [
        "7,8;",
        "(7),8;",
        "(7,,8);",
        "(7 8);",
        "(7)(8);",
        "((7)(8));",
    ];
    cases(rt, &SEVEN_AND_EIGHT, &texts)?;
    cases(rt, &SEVEN, &["(7,);", "(,7);"])?;
    case(rt, "(,);", &[])
}

// Brackets are round, and each has its other.
fn brackets(rt: &impl Print) -> io::Result<()> {
    let texts = [
        "[7];", "{7};", "(7];", "[7);", "(7[8]);", "(7;", "7);", "((7);", "(7));", ")7(;",
    ];
    cases(rt, &SEVEN, &texts)
}

// A group has no label, before or after its list.
fn labels(rt: &impl Print) -> io::Result<()> {
    cases(rt, &SEVEN, &["(7)8;", "(7)8:5;"])?;
    cases(rt, &SEVEN_AND_EIGHT, &["(7)8;", "((7)9,8);"])?;
    cases(rt, &SEVEN, &["8(7);", "(7)a;"])?;
    cases(rt, &SEVEN_AND_EIGHT, &["(7(8));"])
}

// No length means 0.
fn optional_lengths(rt: &impl Print) -> io::Result<()> {
    cases(rt, &SEVEN, &["(7);", "(7:0):0;", "(7):3;", "(7:5):3;"])?;
    cases(rt, &SEVEN_AND_EIGHT, &["(7,8:6);"])
}

// A colon has a number after it, and a part before it.
fn colons(rt: &impl Print) -> io::Result<()> {
    cases(rt, &SEVEN, &["7:;", "7:", "(7:);", "(7):;"])?;
    cases(rt, &SEVEN_AND_EIGHT, &["(7:,8);"])?;
    cases(rt, &[], &[":5;", "(:5);"])
}

// A part has one length.
fn second_lengths(rt: &impl Print) -> io::Result<()> {
    cases(
        rt,
        &SEVEN,
        &[
            "7:5:5;", "(7:5:5);", "(7):5:5;", "7::5;", "7:5 5;", "7:(5);",
        ],
    )
}

// A semicolon ends the tree. Blanks, tabs and line ends may follow it.
fn ends(rt: &impl Print) -> io::Result<()> {
    cases(rt, &SEVEN, &["7; ", "7;\t", "7;\n", "7;\r", "7;\r\n\t  \n"])
}

fn no_ends(rt: &impl Print) -> io::Result<()> {
    cases(rt, &SEVEN, &["7", "(7)", "7:5 \n", ";7"])?;
    cases(rt, &SEVEN_AND_EIGHT, &["(7;8)"])
}

// Nothing else may follow it.
fn later_signs(rt: &impl Print) -> io::Result<()> {
    cases(rt, &SEVEN, &["7;;", "7; ;", "7;7"])?;
    cases(rt, &SEVEN_AND_EIGHT, &["7;8;"])?;
    cases(rt, &SEVEN, &["(7;)", "7;:5", "7;,", "7;\x0b", "7;\x00"])
}

pub fn all(rt: &(impl Print + AllocGlobal)) -> io::Result<()> {
    plates(rt)?;
    lengths(rt)?;
    digits(rt)?;
    other_signs(rt)?;
    blanks(rt)?;
    no_blanks(rt)?;
    lists(rt)?;
    empty_lists(rt)?;
    empty_texts(rt)?;
    commas(rt)?;
    brackets(rt)?;
    labels(rt)?;
    optional_lengths(rt)?;
    colons(rt)?;
    second_lengths(rt)?;
    ends(rt)?;
    no_ends(rt)?;
    later_signs(rt)
}
