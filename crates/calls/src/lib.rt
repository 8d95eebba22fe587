// Everything that document 01 lets an emulator ask of the unit: one type of calls, one step. By value; the door above lends the record.
#![tactic(auto, using(crate::proofs::SetUp::set_up_answers, crate::proofs::SetUp::set_up_stays), unfolding(crate::specs::Calls::performed, crate::specs::Calls::step_of))]

pub mod call;

ghost use Rattle.std.specs.Prelude.{◌≡◌};
ghost use Rattle.unit.specs.Reply.{world, looked, outcome, replied_of};
ghost use Rattle.calls.specs.Calls.{performed, step};

use crate::call::{Act, Call, What};
use lines::line;
use scan::inspect;
use sweep::sweep;
use unit::mux::Mux;
use unit::refusal::Refusal;
use unit::reply::Replied;
use unit::setup::setup;

// One thing asked of the unit that stands.
fn apply(u: Mux, mem: &mut [u16], a: Act) -> Result<Replied, Refusal>
    ensures { looked (replied_of u result) mem.new ≡ performed (world u mem.old) a }
{
    match a {
        Act::Line { port, signal } => line(u, port, signal),
        Act::Processor { order } => processor::order(u, order),
        Act::Inspect => inspect(u, mem),
    }
}

// One call. Setup makes a new record and touches no old one: a refused one leaves the record that stands.
pub fn step(u: Mux, mem: &mut [u16], list: &mut [u16], c: Call) -> Result<Replied, Refusal>
    ensures { outcome (replied_of u result) mem.new list.new ≡ step (world u mem.old) list.old c }
{
    let w = c.what;
    let s = c.setting;
    match w {
        What::Setup => setup(s).map_err(|e| e.refusal),
        What::Do { act } => apply(u, mem, act),
        What::Sweep { n } => sweep(u, mem, n, list),
    }
}
