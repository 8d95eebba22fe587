// The input service of a port: the words read first, a plan, and the stores in document 01's order.
#![tactic(auto)]

pub mod icw;
pub mod plan;
pub mod steps;

ghost use Rattle.std.specs.Prelude.{◌≡◌, ◌<◌};
ghost use Rattle.unit.specs.Reply.{serviced, effect_of};
ghost use Rattle.input.specs.Plan.{plan_of};
ghost use Rattle.input.specs.Input.{carried, input_service};

use crate::icw::{error_code, is_ascii};
use crate::plan::Plan;
use crate::steps::input_plan;
use unit::effect::Effect;
use unit::mux::Port;
use words::ascii::echoed_byte;
use words::byte::{Memory, store};
use words::codes::{IBP, ICW, LIB};
use words::pointer::{at_end, step_ptr};
use words::special::special_in;

// Document 01's order of stores: it settles what is left where a buffer lies on its own control words.
#[tactic(auto, unfolding(crate::specs::Input::carried, words::specs::Byte::word_if, words::specs::Byte::byte_if, ground::specs::Choose::pick))]
fn carry(mem: &mut Memory, at: usize, next: u16, plan: Plan)
    requires { at < 32761 }
    ensures { mem.new ≡ carried (plan_of plan) at next mem.old }
{
    if let Some(byte) = plan.stored {
        mem[at + IBP] = next;
        store(mem, next, byte);
    }
    if plan.write {
        mem[at + ICW] = plan.icw;
    }
}

// The block starts at the word `at`; below 32761 its eight words lie in the memory, as `block_at` ensures. The set is the unit's own.
// That bound stands in a clause, here, in `carry` and in output, and in no type: docs/CLAIMS.md names both services, which may take no type with an invariant.
#[tactic(auto, using(crate::proofs::Stores::carried_planned), unfolding(crate::specs::Input::input_service, ground::specs::Choose::pick))]
pub fn service(mem: &mut Memory, at: usize, q: Port, codes: [bool; 128]) -> Effect
    requires { at < 32761 }
    ensures { serviced (effect_of result) mem.new ≡ input_service codes mem.old at q }
{
    let icw = mem[at + ICW];
    let ibp = mem[at + IBP];
    let lib = mem[at + LIB];
    let c = q.ch.byte;
    let plan = input_plan(
        icw,
        error_code(q.control, q.ch),
        c,
        at_end(ibp, lib),
        special_in(codes, c),
        q.empty,
    );
    carry(mem, at, step_ptr(ibp), plan);
    Effect {
        sent: plan.echo.then_some(echoed_byte(is_ascii(icw), c)),
        raised: plan.raised,
        control: q.control,
        devcontrol: q.devcontrol,
    }
}
