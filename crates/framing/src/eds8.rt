// The form that an EDS-8's control bits ask for (001, section 4.2, bits 8 to 12). It has one stop or two, for 5-bit code as well.
ghost use Rattle.std.specs.Prelude.{◌≡◌};
ghost use Rattle.framing.specs.Eds8.{bits_of, parity_of, stops_of, form_of};

use crate::form::{DataBits, Form, Parity, Stops};
use words::codes::{EVEN_PARITY, LENGTH, PARITY_INHIBIT, STOP_BAUDS};
use words::field::{get, is_set};

// The number of data bits, by bits 10 and 11.
#[tactic(auto, unfolding(crate::specs::Eds8::bits_of))]
fn bits_of(control: u8) -> DataBits
    ensures { result ≡ bits_of control }
{
    DataBits::from(get(control as u16, LENGTH) as u32)
}

// The parity, by bits 8 and 12.
#[tactic(auto, unfolding(crate::specs::Eds8::parity_of, ground::specs::Choose::pick))]
fn parity_of(control: u8) -> Parity
    ensures { result ≡ parity_of control }
{
    if is_set(control as u16, PARITY_INHIBIT) {
        return Parity::Inhibited;
    }
    if is_set(control as u16, EVEN_PARITY) {
        return Parity::Even;
    }
    Parity::Odd
}

// The stops, by bit 9.
#[tactic(auto, unfolding(crate::specs::Eds8::stops_of, ground::specs::Choose::pick))]
fn stops_of(control: u8) -> Stops
    ensures { result ≡ stops_of control }
{
    if is_set(control as u16, STOP_BAUDS) {
        return Stops::Two;
    }
    Stops::One
}

// The form of a port's frames. A function and no From: From<u32> is the form of a number, and a byte of control bits is no such number.
#[tactic(auto, unfolding(crate::specs::Eds8::form_of))]
pub fn form_of(control: u8) -> Form
    ensures { result ≡ form_of control }
{
    Form {
        bits: bits_of(control),
        parity: parity_of(control),
        stops: stops_of(control),
    }
}
