// The output service of a port: the words read first, a plan, and the stores in document 01's order.
#![tactic(auto)]

pub mod modes;
pub mod ocw;
pub mod plan;

ghost use Rattle.std.specs.Prelude.{◌≡◌, ◌<◌};
ghost use Rattle.unit.specs.Reply.{serviced, effect_of};
ghost use Rattle.output.specs.Output.{output_service};

use crate::modes::output_plan;
use crate::ocw::{is_auto, is_done, written_ocw};
use unit::effect::Effect;
use unit::mux::Port;
use words::byte::{Memory, fetch};
use words::codes::{LOB, OBP, OCW};
use words::pointer::{at_end, step_ptr};
use words::special::special_in;

// The block starts at the word `at`; below 32761 its eight words lie in the memory, as `block_at` ensures. The set is the unit's own.
#[tactic(auto, unfolding(crate::specs::Output::output_service, words::specs::Byte::word_if, ground::specs::Choose::pick))]
pub fn service(mem: &mut Memory, at: usize, q: Port, codes: [bool; 128]) -> Effect
    requires { at < 32761 }
    ensures { serviced (effect_of result) mem.new ≡ output_service codes mem.old at q }
{
    let ocw = mem[at + OCW];
    let obp = mem[at + OBP];
    let lob = mem[at + LOB];
    let next = step_ptr(obp);
    if is_auto(ocw) {
        mem[at + OBP] = next;
    }
    // Read in every mode; only the automatic plan uses it.
    let fetched = fetch(mem, next);
    let plan = output_plan(
        ocw,
        q,
        fetched,
        at_end(obp, lob),
        special_in(codes, fetched),
    );
    let done = is_done(ocw, q.devstatus, plan.done);
    mem[at + OCW] = written_ocw(ocw, q.devstatus, done);
    Effect {
        sent: plan.sent,
        raised: done,
        control: plan.control,
        devcontrol: plan.devcontrol,
    }
}
