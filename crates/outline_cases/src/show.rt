// The line that is printed for a case.
ghost use Rattle.std.specs.Prelude.{◌≤◌};

use outline::fields::is_locked;
use samples::outlines::tree_a;
use samples::words::{Fields, Refused};
use std::io;

// What the check gives for an outline: the number and the place of its refusal, `0 0` if it accepts.
pub fn check(rt: &impl Print, label: &str, o: &[u8]) -> io::Result<()> {
    match outline::check(o) {
        Ok(()) => println!(rt; "{label}: 0 0"),
        Err(refusal) => println!(rt; "{label}: {}", Refused(refusal)),
    }
}

// The check of tree A with another record r, a number under the bound of samples/src/outlines.rt.
pub fn changed(rt: &impl Print, label: &str, r: usize, fields: [u32; 5]) -> io::Result<()>
    requires { (1 ≤ r) × (r ≤ 5) }
{
    check(rt, label, tree_a().with(r, fields).bytes())
}

// The record of a plate in an outline, read from the record itself. The label, if any, says what is special about the outline.
pub fn find(rt: &impl Print, label: &str, o: &[u8], plate: u32) -> io::Result<()> {
    let found = outline::find(o, plate);
    if found.is_empty() {
        return println!(rt; "find {plate}{label}: empty");
    }
    if found.len() != 16 {
        return println!(rt; "find {plate}{label}: not one record");
    }
    let locked = if is_locked(found, 1) { " locked" } else { "" };
    println!(rt;
        "find {plate}{label}: {}{locked}",
        Fields { o: found, r: 1 }
    )
}
