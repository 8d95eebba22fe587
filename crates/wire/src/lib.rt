// From the wire into the unit: what a read frame gives is what an arrival takes (document 02, K3).
#![tactic(auto)]

ghost use Rattle.std.specs.Prelude.{◌≡◌};
ghost use Rattle.framing.specs.Read.{frame_of};
ghost use Rattle.wire.specs.Wire.{arrival_of};

use framing::read::Frame;
use lines::signal::Signal;

// The arrival of the character that was read, with its own two marks.
pub fn arrival_of(r: Frame) -> Signal
    ensures { result ≡ arrival_of (frame_of (Ok r)) }
{
    Signal::Arrival {
        c: r.c,
        parity: r.parity,
        brk: r.brk,
    }
}
