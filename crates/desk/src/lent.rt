// A desk hears a message on a record that is lent (paper 01, "Desk", last paragraph).
ghost use Rattle.std.specs.Prelude.{◌≡◌};
ghost use Rattle.desk.specs.Hears.{hear_of};

use super::record::{Desk, Hearing};
use config::Refusal;

// Hear on a record that the caller lends and finds changed, or as it was where the reply was late or refused. It calls the hear by value and stores what comes
// back, which is the form that paper 01 names for it ("Which form belongs where").
pub fn hear_lent(desk: &mut Desk, msg: &[u8]) -> Result<Hearing, Refusal>
    ensures { (result ≡ (hear_of desk.old msg.now).hearing) × (desk.new ≡ (hear_of desk.old msg.now).desk) }
{
    let heard = Desk::hear(*desk, msg);
    *desk = heard.desk;
    heard.hearing
}
