// The eight speeds, a constant table by the three speed bits.
#![tactic(auto, unfolding(crate::specs::Speed::speed_of))]

ghost use Rattle.std.specs.Prelude.{◌≡◌};
ghost use Rattle.words.specs.Speed.{speed_of};

use crate::codes::SPEED;
use crate::field::get;

const SPEEDS: [u16; 8] = [110, 150, 300, 600, 1200, 2400, 4800, 9600];

// The speed, in baud, that a port's control bits ask for.
pub fn speed_of(control: u8) -> u16
    ensures { result ≡ speed_of control }
{
    let at = get(control as u16, SPEED) as usize;
    SPEEDS[at]
}
