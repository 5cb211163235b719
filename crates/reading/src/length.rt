// The length of a part, and the token after it, by the text that is left.
ghost use Rattle.std.specs.Prelude.{MatchOption};
ghost use Rattle.reading.specs.Inner.{NoNumber, NumberRead, Stopped, Followed};

use newick::token::{Token, read_token};

// The number after a colon, and what is left after it.
fn number_after(text: &[u8]) -> Option<(u32, &[u8])>
    ensures { MatchOption result (NoNumber text.now) (λ read. NumberRead text.now read.0 read.1.now) }
{
    let (token, rest) = read_token(text).ok()?;
    match token {
        Token::Number(length) => Some((length, rest)),
        _ => None,
    }
}

// What follows a part: its length, 0 without a colon, the next token, and what is left after that. It is inlined, since a call would
// copy what `read_token` gives.
#[inline(always)]
pub fn follow(text: &[u8]) -> Option<(u32, Token, &[u8])>
    ensures { MatchOption result (Stopped text.now) (λ next. Followed text.now next.0 next.1 next.2.now) }
{
    let (token, rest) = read_token(text).ok()?;
    match token {
        Token::Colon => {
            let (length, rest) = number_after(rest)?;
            let (token, rest) = read_token(rest).ok()?;
            Some((length, token, rest))
        }
        _ => Some((0, token, rest)),
    }
}
