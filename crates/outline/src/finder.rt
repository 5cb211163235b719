// Finding the record of a plate.
ghost use Rattle.std.specs.Prelude.{◌≡◌};
ghost use Rattle.lists.specs.Lists.{nonzero};
ghost use Rattle.outline.specs.Answer.{found_at, found};

use super::checker::check;
use super::rules::holder_of;

// The record of the taxon of a plate; none if the check refuses the outline or no taxon has the plate.
pub fn find_record(outline: &[u8], plate: u32) -> Option<usize>
    ensures { result ≡ nonzero (found_at outline.now plate) }
{
    check(outline).ok()?;
    holder_of(outline, plate, outline.len() / 16)
}

// The 16 bytes of that record, as a part of the outline. Document 01 asks for an empty part if there is none.
pub fn find(outline: &[u8], plate: u32) -> &[u8]
    ensures { result.now ≡ found outline.now plate }
{
    match find_record(outline, plate) {
        None => &outline[..0],
        Some(r) => {
            let start = 16 * (r - 1);
            let end = start + 16;
            &outline[start..end]
        }
    }
}
