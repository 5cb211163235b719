// The check of an outline: the first row of the table of refusals that holds, and its place.
ghost use Rattle.std.specs.Prelude.{◌≡◌, ◌*◌, ◌≤◌, length, ltb};
ghost use Rattle.refusals.specs.Refusals.{told, row, ◌▸◌};
ghost use Rattle.outline.specs.Outline.{size};
ghost use Rattle.outline.specs.Answer.{size_rows, record_rows, checked};
ghost use Rattle.outline.specs.Rules.{most_records};

use super::limits::{MOST_RECORDS, MOST_TAXA};
use super::rules::{bad_field, bad_link, count_links, is_duplicate, taxa_of};
use lists::lowest;
use refusals::Refusal;

// Rows 2 and 3: whether an outline is whole records, and not too many.
pub fn check_size(outline: &[u8]) -> Result<(), Refusal>
    ensures { told result ≡ size_rows outline.now }
{
    let len = outline.len();
    if (len == 0) | (len % 16 != 0) {
        return Err(Refusal::PartialRecord);
    }
    if MOST_RECORDS < len / 16 {
        return Err(Refusal::TooManyRecords);
    }
    Ok(())
}

// Rows 5 to 8: whether the records keep every rule.
pub fn check_records(outline: &[u8]) -> Result<(), Refusal>
    requires { size outline.now ≤ most_records }
    ensures { told result ≡ record_rows outline.now }
{
    let n = outline.len() / 16;
    let counts = count_links(outline);
    if let Some(field) = lowest(n, |r| bad_field(outline, r)) {
        return Err(Refusal::FieldOutOfRange(field));
    }
    if let Some(link) = lowest(n, |r| bad_link(outline, &counts, r)) {
        return Err(Refusal::BadLink(link));
    }
    if MOST_TAXA < taxa_of(outline) {
        return Err(Refusal::TooManyTaxa);
    }
    if let Some(duplicate) = lowest(n, |r| is_duplicate(outline, r)) {
        return Err(Refusal::DuplicatePlate(duplicate));
    }
    Ok(())
}

// Whether an outline is accepted, or the first row of the table that refuses it.
pub fn check(outline: &[u8]) -> Result<(), Refusal>
    ensures { told result ≡ checked outline.now }
{
    check_size(outline)?;
    check_records(outline)
}

// The check, then row 9 for a lent buffer: whether it has 16 bytes for each record.
pub fn check_with_room(outline: &[u8], lent: &[u8]) -> Result<(), Refusal>
    ensures { told result ≡ (checked outline.now ▸ row 9 (ltb (length lent.now) (16 * size outline.now))) }
{
    check(outline)?;
    if lent.len() < 16 * (outline.len() / 16) {
        return Err(Refusal::BufferTooShort);
    }
    Ok(())
}
