// One inspection: the turn of the port at the scan position, and the position moved on.
#![tactic(auto)]

pub mod turn;

ghost use Rattle.std.specs.Prelude.{◌≡◌};
ghost use Rattle.unit.specs.Reply.{looked, answered, answer_of, replied_of};
ghost use Rattle.unit.specs.Sound.{Sound};
ghost use Rattle.scan.specs.Turn.{turned_of};
ghost use Rattle.scan.specs.Scan.{moved, scanned, inspection};

use crate::turn::{Turned, turn};
use unit::mux::Mux;
use unit::refusal::{Refusal, inspect_refusal};
use unit::reply::{Answer, Replied, answered, nothing};
use words::byte::{Memory, WORDS};

// The record after a turn, also one that was made of a position from outside: the port in its place, the interrupt side, the position one on.
#[tactic(auto, unfolding(crate::specs::Scan::moved, crate::specs::Scan::next_pos))]
pub fn moved(u: Mux, t: Turned) -> Mux
    requires { Sound u }
    ensures { result ≡ moved u (turned_of t) }
{
    let mut port = u.port;
    port[u.pos as usize] = t.port;
    Mux {
        pos: (u.pos + 1) % u.setting.ports,
        irq: t.irq,
        port,
        ..u
    }
}

// The turn of the port at the scan position, made of the parts that it reads; what it changes is put into the record, and the position is one on.
// Inlined, since a call would copy the answer once more at each turn of a sweep.
#[tactic(auto, unfolding(crate::specs::Scan::scanned, crate::specs::Scan::next_pos, unit::specs::Record::port_at))]
#[inline(always)]
pub fn take_turn(u: &mut Mux, mem: &mut Memory) -> Answer
    requires { Sound u.old }
    ensures { looked (answered (answer_of result) u.new) mem.new ≡ scanned u.old mem.old }
{
    let at = u.pos as usize;
    let t = turn(u.setting, u.pos, u.port[at], u.irq, mem);
    u.port[at] = t.port;
    u.irq = t.irq;
    u.pos = (u.pos + 1) % u.setting.ports;
    t.answer
}

// One inspection: of a unit that runs it is a turn.
#[tactic(auto, using(unit::proofs::Found::stops, unit::proofs::Found::passes, crate::proofs::Asked::sound, crate::proofs::Asked::whole), unfolding(crate::specs::Scan::inspection, ground::specs::Choose::pick))]
pub fn inspect(mut u: Mux, mem: &mut [u16]) -> Result<Replied, Refusal>
    ensures { looked (replied_of u result) mem.new ≡ inspection u mem.old }
{
    inspect_refusal(u, mem)?;
    if !u.runs {
        return Ok(answered(nothing(), u));
    }
    let answer = take_turn(&mut u, mem.as_mut_array::<WORDS>().unwrap());
    Ok(answered(answer, u))
}
