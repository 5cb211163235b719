// The tokens of a text, one by one: a sign, or a number of 1 to 9 digits.
ghost use Rattle.std.specs.Prelude.{◌≡◌, ◌≤◌, [], length, MatchOption, MatchResult};
ghost use Rattle.std.specs.Char.{is_ascii_digit};
ghost use Rattle.std.specs.List.{prefix_len};
ghost use Rattle.newick.specs.Parsing.{tokens_of};
ghost use Rattle.newick.specs.Inner.{BeginsNumber, Met, Tokenless};

use super::sign::Sign;

// A number has at most so many digits.
const MOST_DIGITS: usize = 9;

// A word of a text, or a piece of it that no tree can contain.
#[derive(Clone, Copy, Debug, PartialEq, Eq)]
pub enum Token {
    Open,
    Close,
    Comma,
    Colon,
    Semicolon,
    Number(u32),
    Other,
}

// The token of a sign. A digit and a blank are no tokens by themselves and give `Other`, which no tree contains; `read_token` asks for neither.
impl From<Sign> for Token {
    ghost use Rattle.newick.specs.Inner.{token_of};

    ghost from_gives = { λ sign token. token ≡ token_of sign };

    fn from(sign: Sign) -> Token {
        match sign {
            Sign::Open => Token::Open,
            Sign::Close => Token::Close,
            Sign::Comma => Token::Comma,
            Sign::Colon => Token::Colon,
            Sign::Semicolon => Token::Semicolon,
            _ => Token::Other,
        }
    }
}

// Why the first token of a text is not given: nothing but blanks is left, or it is a number of ten digits or more, whose end is not looked
// for. What is left of the text from its tenth digit on is given instead.
#[derive(Clone, Copy, Debug, PartialEq, Eq)]
pub enum NoToken<'a> {
    Nothing,
    Overlong(&'a [u8]),
}

// The number that a text begins with, and what is left after it. One of ten digits or more is no part of a tree, and is left at the tenth.
// A loop and no `fold`, in whose closure the bound of the value is not known.
fn first_number(text: &[u8]) -> Result<(Token, &[u8]), NoToken<'_>>
    requires { BeginsNumber text.now }
    ensures { MatchResult result (λ found. Met text.now found.0 found.1.now) (Tokenless text.now) }
{
    let mut value: u32 = 0;
    for (i, byte) in text.iter().enumerate() {
        if !byte.is_ascii_digit() {
            return Ok((Token::Number(value), &text[i..]));
        }
        if i == MOST_DIGITS {
            return Err(NoToken::Overlong(&text[i..]));
        }
        value = 10 * value + (*byte - b'0') as u32;
    }
    Ok((Token::Number(value), &[]))
}

// The first token of a text, past the blanks before it, and what is left after it, unless it is a number that no tree can contain: of that
// ten digits are read, however many follow.
pub fn read_token(text: &[u8]) -> Result<(Token, &[u8]), NoToken<'_>>
    ensures { MatchResult result (λ found. Met text.now found.0 found.1.now) (Tokenless text.now) }
{
    for (i, byte) in text.iter().enumerate() {
        let sign = Sign::from(*byte);
        match sign {
            Sign::Blank => {}
            Sign::Digit => return first_number(&text[i..]),
            _ => return Ok((Token::from(sign), &text[i + 1..])),
        }
    }
    Err(NoToken::Nothing)
}

// How many digits a text begins with.
fn leading_digits(text: &[u8]) -> usize
    ensures count { result ≡ prefix_len is_ascii_digit text.now }
    ensures within { result ≤ length text.now }
{
    text.iter().take_while(|byte| byte.is_ascii_digit()).count()
}

// The first token of a text, past the blanks before it, and what is left after it. Digits side by side are one, however many they are.
pub fn first_token(text: &[u8]) -> Option<(Token, &[u8])>
    ensures { MatchOption result (tokens_of text.now ≡ []) (λ found. Met text.now found.0 found.1.now) }
{
    match read_token(text) {
        Ok(found) => Some(found),
        Err(NoToken::Overlong(digits)) => Some((Token::Other, &digits[leading_digits(digits)..])),
        Err(NoToken::Nothing) => None,
    }
}
