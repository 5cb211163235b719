// How far the best diversity moves beside the length.
ghost use Rattle.std.specs.Prelude.{◌≡◌};
ghost use Rattle.revise.specs.Moved.{moved, MovesWith};

use super::answer::Moved;

// The new number minus the old, with its sign.
fn difference(old: u32, new: u32) -> i64
    ensures { result ≡ moved old new }
{
    new as i64 - old as i64
}

// Both differences. That of the best diversities is never larger than that of the lengths, and never of the other sign.
pub fn movement(old: u32, new: u32, from: u32, to: u32) -> Moved
    requires { MovesWith (moved old new) (moved from to) }
    ensures best { result.best ≡ moved old new }
    ensures length { result.length ≡ moved from to }
    ensures tied { MovesWith result.best result.length }
{
    Moved {
        best: difference(old, new),
        length: difference(from, to),
    }
}
