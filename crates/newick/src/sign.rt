// The classes of bytes, by which the reader decides. They share names with tokens and are no part of them: of a pattern within a
// pattern a `_` arm would know nothing.

// What a byte is in a text.
#[derive(Clone, Copy, Debug, PartialEq, Eq)]
pub enum Sign {
    Open,
    Close,
    Comma,
    Colon,
    Semicolon,
    Digit,
    Blank,
    Other,
}

impl From<u8> for Sign {
    ghost use Rattle.std.specs.Prelude.{◌≡◌};
    ghost use Rattle.newick.specs.Parsing.{sign_of};

    ghost from_gives = { λ byte sign. sign ≡ sign_of byte };

    #[tactic(auto, unfolding(crate::specs::Parsing::sign_of))]
    fn from(byte: u8) -> Sign {
        match byte {
            b'(' => Sign::Open,
            b')' => Sign::Close,
            b',' => Sign::Comma,
            b':' => Sign::Colon,
            b';' => Sign::Semicolon,
            b'0'..=b'9' => Sign::Digit,
            b' ' | b'\t' | b'\n' | b'\r' => Sign::Blank,
            _ => Sign::Other,
        }
    }
}
