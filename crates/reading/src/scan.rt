// Whether a text is a tree, and what ends it.
ghost use Rattle.std.specs.Prelude.{◌≡◌, false, ◌∷◌, MatchOption};
ghost use Rattle.newick.specs.Parsing.{tokens_of, nothing, ends, grown};
ghost use Rattle.reading.specs.Scan.{is_tree};

use super::place::Place;
use newick::token::{NoToken, Token, read_token};

// Whether nothing but blanks is left.
fn is_blank(text: &[u8]) -> bool
    ensures { result ≡ nothing (tokens_of text.now) }
{
    match read_token(text) {
        Ok(_) => false,
        Err(NoToken::Overlong(_)) => false,
        Err(NoToken::Nothing) => true,
    }
}

// Whether a token is the semicolon, and nothing but blanks is left after it.
pub fn ends(token: Token, rest: &[u8]) -> bool
    ensures { result ≡ ends (token ∷ tokens_of rest.now) }
{
    match token {
        Token::Semicolon => is_blank(rest),
        _ => false,
    }
}

// The place after the part that a text begins with: on and on, until no list is open.
fn past_part(text: &[u8]) -> Option<Place<'_>>
    ensures { MatchOption result (is_tree (grown text.now) ≡ false) (λ p. is_tree (grown text.now) ≡ ends (p.token ∷ tokens_of p.rest.now)) }
{
    let mut place = Place::past_taxon(text, 0)?;
    while place.depth > 0 {
        place = place.onward()?;
    }
    Some(place)
}

// Whether a text is a tree.
pub fn is_tree(text: &[u8]) -> bool
    ensures { result ≡ is_tree (grown text.now) }
{
    past_part(text).is_some_and(|place| ends(place.token, place.rest))
}
