// The fields of an outline's records. An outline and a record's number are passed side by side. A struct of both was tried and is no
// plainer: a clause says `price r.now.0 r.now.1` for `price o.now r`, it can't be `Copy`, and a link that may be 0 does not fit it. These are
// no methods of an accepted outline, since the check reads fields before it accepts one; why there is no such type stands in
// measures/src/lib.rt. How many records there are is written out, `o.len() / 16`, which the check computes: a call's result is known by an
// equation alone, which each loop's bound would need.
ghost use Rattle.std.specs.Prelude.{◌≡◌, ◌+◌, ◌<◌, length};
ghost use Rattle.outline.specs.Outline.{short, long, next, first, branch, price, plate_field, plate, is_taxon, locked, IsRecord};

// Bit 31 of a plate field, the lock; the bits below it are the plate's number.
pub const LOCK: u32 = 1 << 31;

// The number of two bytes at a place: `from_le_bytes` under the definition's name.
pub fn short_at(o: &[u8], at: usize) -> u16
    requires { at + 1 < length o.now }
    ensures { result ≡ short o.now at }
{
    u16::from_le_bytes([o[at], o[at + 1]])
}

// The number of four bytes at a place, likewise.
fn long_at(o: &[u8], at: usize) -> u32
    requires { at + 3 < length o.now }
    ensures { result ≡ long o.now at }
{
    u32::from_le_bytes([o[at], o[at + 1], o[at + 2], o[at + 3]])
}

// The record of the next member under the same heading, 0 if there is none, as the record has it: a link that no check has passed
// may be any number, and a row's place is reckoned from it, 0 too.
pub fn next_of(o: &[u8], r: usize) -> usize
    requires { IsRecord o.now r }
    ensures { result ≡ next o.now r }
{
    short_at(o, 16 * (r - 1)) as usize
}

// The record of the first member, 0 at a taxon, as the record has it.
pub fn first_of(o: &[u8], r: usize) -> usize
    requires { IsRecord o.now r }
    ensures { result ≡ first o.now r }
{
    short_at(o, 16 * (r - 1) + 2) as usize
}

// The length of the branch above the record.
pub fn branch_of(o: &[u8], r: usize) -> u32
    requires { IsRecord o.now r }
    ensures { result ≡ branch o.now r }
{
    long_at(o, 16 * (r - 1) + 4)
}

// The price of a taxon's plate or of a group's heading.
pub fn price_of(o: &[u8], r: usize) -> u32
    requires { IsRecord o.now r }
    ensures { result ≡ price o.now r }
{
    long_at(o, 16 * (r - 1) + 8)
}

// The plate field, with the lock.
pub fn plate_field_of(o: &[u8], r: usize) -> u32
    requires { IsRecord o.now r }
    ensures { result ≡ plate_field o.now r }
{
    long_at(o, 16 * (r - 1) + 12)
}

// The plate's number, by `%` as the definition has it.
pub fn plate_of(o: &[u8], r: usize) -> u32
    requires { IsRecord o.now r }
    ensures { result ≡ plate o.now r }
{
    plate_field_of(o, r) % LOCK
}

// Whether the record is a taxon.
pub fn is_taxon(o: &[u8], r: usize) -> bool
    requires { IsRecord o.now r }
    ensures { result ≡ is_taxon o.now r }
{
    first_of(o, r) == 0
}

// Whether the record is a locked taxon.
pub fn is_locked(o: &[u8], r: usize) -> bool
    requires { IsRecord o.now r }
    ensures { result ≡ locked o.now r }
{
    is_taxon(o, r) & (plate_field_of(o, r) / LOCK % 2 == 1)
}
