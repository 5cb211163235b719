// The place of the readers in a text, lent by `&mut`. The scan has its own by value, in place.rt.
ghost use Rattle.std.specs.Prelude.{◌≤◌, length};
ghost use Rattle.outline.specs.Rules.{most_records};

use super::flaw::Flaw;
use super::length::follow;
use newick::token::{Token, read_token};
use outline::limits::MOST_RECORDS;

// Where the rest of a text begins, and how many records have begun before it.
#[derive(Drop)]
pub struct Cursor<'a> {
    pub text: &'a [u8],
    pub at: usize,
    pub records: usize,
    ghost within: { at ≤ length text.now },
    ghost few: { records ≤ most_records },
}

impl<'a> Cursor<'a> {
    ghost use Rattle.std.specs.Prelude.{◌≡◌, MatchResult};
    ghost use Rattle.reading.specs.Inner.{left_of, Begun, Full, Moved, Ended, Lengthened, Cut};

    // What is left of the text.
    pub fn left(&self) -> &'a [u8]
        ensures { result.now ≡ left_of self.now }
    {
        &self.text[self.at..]
    }

    // Counts a record that begins, and gives how many have begun before it.
    pub fn begin(&mut self) -> Result<usize, Flaw>
        ensures { MatchResult result (Begun self.old self.new) (Full self.old) }
    {
        let before = self.records;
        if before == MOST_RECORDS {
            return Err(Flaw::TooMany);
        }
        self.records = before + 1;
        Ok(before)
    }

    // The next token, past which the place moves.
    pub fn next_token(&mut self) -> Result<Token, Flaw>
        ensures { MatchResult result (Moved self.old self.new) (Ended self.old) }
    {
        let (token, rest) = read_token(self.left()).ok().ok_or(Flaw::Malformed)?;
        self.at = self.text.len() - rest.len();
        Ok(token)
    }

    // The length of a part, 0 without a colon, and the token after it, past which the place moves.
    pub fn follow(&mut self) -> Result<(u32, Token), Flaw>
        ensures { MatchResult result (λ next. Lengthened self.old self.new next.0 next.1) (Cut self.old) }
    {
        let (length, token, rest) = follow(self.left()).ok_or(Flaw::Malformed)?;
        self.at = self.text.len() - rest.len();
        Ok((length, token))
    }
}
