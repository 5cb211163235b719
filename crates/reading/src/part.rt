// Parts and lists of parts: their readers call each other, and the bytes left fall.
use super::draft::{Draft, Part};
use super::flaw::Flaw;
use newick::token::Token;

impl<'a> Draft<'a> {
    ghost use Rattle.std.specs.Prelude.{MatchResult};
    ghost use Rattle.newick.specs.Grammar.{part, chain};
    ghost use Rattle.reading.specs.Inner.{Short, Failed, Unread, PartRead, ListRead};

    // A part: a plate number, or a bracketed list of parts, with its length. The records below it are drafted; its own fields are
    // given, and the token that follows it.
    #[cycle(part_and_list)]
    pub fn read_part(&mut self) -> Result<(Part, Token), Flaw>
        ensures { MatchResult result (λ read. PartRead self.old self.new read.0 read.1) (Unread part Short self.old.cursor) }
    {
        let before = self.cursor.begin()?;
        let token = self.cursor.next_token()?;
        let (first, plate) = match token {
            Token::Number(plate) => (0, plate),
            Token::Open => {
                self.read_list()?;
                (before + 2, 0)
            }
            _ => return Err(Flaw::Malformed),
        };
        let (length, token) = self.cursor.follow()?;
        let part = Part {
            first,
            length,
            plate,
        };
        Ok((part, token))
    }

    // The members of a list and its closing bracket. Each member's record is drafted once it is known what follows it.
    #[cycle(part_and_list)]
    fn read_list(&mut self) -> Result<(), Flaw>
        ensures { MatchResult result (λ read. ListRead self.old self.new) (Unread chain Failed self.old.cursor) }
    {
        let before = self.cursor.records;
        let (part, token) = self.read_part()?;
        match token {
            Token::Comma => {
                let next = self.cursor.records + 1;
                self.draft_record(before, next, part);
                self.read_list()
            }
            Token::Close => {
                self.draft_record(before, 0, part);
                Ok(())
            }
            _ => Err(Flaw::Malformed),
        }
    }
}
