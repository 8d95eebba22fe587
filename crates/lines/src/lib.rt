// What the lines do: a character arrives, a transmitter runs empty, a Device Status line changes. One call for all three, for they are refused alike.
#![tactic(auto)]

pub mod signal;

ghost use Rattle.std.specs.Prelude.{◌≡◌};
ghost use Rattle.unit.specs.Reply.{replied_of};
ghost use Rattle.lines.specs.Lines.{arrived_port, signalled, line};

use crate::signal::Signal;
use unit::mux::{Character, Mux, Port, port_at, with_port};
use unit::refusal::{Refusal, port_refusal};
use unit::reply::{Replied, accepted};
use words::length::cut;

// The port with the character held, cut to its length; one that replaces a held one carries the overload mark.
fn arrived_port(q: Port, c: u8, parity: bool, brk: bool) -> Port
    ensures { result ≡ arrived_port q c parity brk }
{
    let ch = Character {
        byte: cut(q.control, c),
        parity,
        brk,
        overload: q.held,
    };
    Port {
        held: true,
        ch,
        ..q
    }
}

// The port after the signal: its transmitter's buffer empty, or its Device Status line at the level.
#[tactic(auto, unfolding(crate::specs::Lines::signalled))]
fn signalled(q: Port, e: Signal) -> Port
    ensures { result ≡ signalled q e }
{
    match e {
        Signal::Arrival { c, parity, brk } => arrived_port(q, c, parity, brk),
        Signal::TransmitterEmpty => Port { empty: true, ..q },
        Signal::DeviceStatus { level } => Port {
            devstatus: level,
            ..q
        },
    }
}

// A signal at port p. It is taken in a stopped unit as well.
#[tactic(auto, using(unit::proofs::Found::refuses, unit::proofs::Found::takes, unit::proofs::laws::Sound::port_below), unfolding(crate::specs::Lines::line))]
pub fn line(u: Mux, p: u32, e: Signal) -> Result<Replied, Refusal>
    ensures { replied_of u result ≡ line u p e }
{
    port_refusal(u, p)?;
    Ok(accepted(0, with_port(u, p, signalled(port_at(u, p), e))))
}
