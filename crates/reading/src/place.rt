// A place in a text that is gone through once, with a count of open lists. No call is nested here, so that a text of any depth takes
// no more room than another, and every token is taken once. It goes on in loops by the place, here and in scan.rt: how many tokens are passed is
// known only when they are read, so that no range or iterator counts them.
ghost use Rattle.std.specs.Prelude.{◌+◌, ◌<◌, ◌^◌, length};

use super::length::follow;
use newick::token::{Token, read_token};

// A place after a part with its length: the token that follows, what is left of the text after it, and how many lists are open.
#[derive(Clone, Copy)]
pub struct Place<'a> {
    pub token: Token,
    pub rest: &'a [u8],
    pub depth: usize,
    ghost deep: { depth + length rest.now < 2 ^ 64 },
}

impl<'a> Place<'a> {
    ghost use Rattle.reading.specs.Scan.{FromTaxon, FromPart};

    // Where a part is wanted: the place after the first taxon, past the lists that open before it, however many.
    pub fn past_taxon(text: &'a [u8], depth: usize) -> Option<Place<'a>>
        requires { depth + length text.now < 2 ^ 64 }
        ensures { FromTaxon text.now depth result }
    {
        let mut text = text;
        let mut depth = depth;
        loop {
            let (token, rest) = read_token(text).ok()?;
            match token {
                Token::Open => {
                    text = rest;
                    depth += 1;
                }
                Token::Number(_) => {
                    let (_, token, rest) = follow(rest)?;
                    return Some(Place { token, rest, depth });
                }
                _ => return None,
            }
        }
    }

    // In a list: the place after the next taxon, or after the list, which is itself a part.
    pub fn onward(self) -> Option<Place<'a>>
        requires { 0 < self.depth }
        ensures { FromPart self.entry result }
    {
        match self.token {
            Token::Comma => Place::past_taxon(self.rest, self.depth),
            Token::Close => {
                let (_, token, rest) = follow(self.rest)?;
                let depth = self.depth - 1;
                Some(Place { token, rest, depth })
            }
            _ => None,
        }
    }
}
