// A port's length, 5 to 8 bits by its control bits, and the cut of a character to it.
#![tactic(auto, unfolding(crate::specs::Length::cut, crate::specs::Length::span_of))]

ghost use Rattle.std.specs.Prelude.{◌≡◌};
ghost use Rattle.words.specs.Length.{cut, span_of};

use crate::codes::LENGTH;
use crate::field::get;

const SPANS: [u16; 4] = [32, 64, 128, 256];

// How many codes a character of the port's length can have.
pub fn span_of(control: u8) -> u16
    ensures { result ≡ span_of control }
{
    let at = get(control as u16, LENGTH) as usize;
    SPANS[at]
}

// The character with the bits above the port's length made 0.
pub fn cut(control: u8, c: u8) -> u8
    ensures { result ≡ cut control c }
{
    (c as u16 % span_of(control)) as u8
}
