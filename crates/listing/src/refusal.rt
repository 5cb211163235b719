// The line of a refusal.
ghost use Rattle.refusals.specs.Refusals.{refusal as told};
ghost use Rattle.text.specs.Written.{LongEnough, Put};
ghost use Rattle.listing.specs.Printed.{refusal_text};

use refusals::Refusal;
use text::Pen;

pub fn put_refusal(pen: &mut Pen<u8>, refusal: Refusal)
    requires { LongEnough (refusal_text (told refusal)) pen.old }
    ensures { Put (refusal_text (told refusal)) pen.old pen.new }
{
    let number = refusal.number() as u64;
    let place = refusal.place() as u64;
    pen.put_labelled(b"refused", &[number, place]);
}
