// A sweep: inspections one after the other, the bytes handed over gathered in a lent list.
#![tactic(auto)]

ghost use Rattle.std.specs.Prelude.{◌≡◌, ◌+◌, ◌*◌, ◌<◌, ◌≤◌, true, length};
ghost use Rattle.unit.specs.Reply.{outcome, answer_of, replied_of};
ghost use Rattle.unit.specs.Refusals.{MOST-INSPECTIONS};
ghost use Rattle.unit.specs.Sound.{Sound};
ghost use Rattle.sweep.specs.Sweep.{Entered, set_out, swept, arrived_at, sweep_from, sweep};

use scan::take_turn;
use unit::mux::Mux;
use unit::refusal::{Refusal, sweep_refusal};
use unit::reply::{Answer, Replied, Reply, nothing};
use words::byte::{Memory, WORDS};

// A byte handed over as the list has it.
fn entry_of(port: u32, byte: u8) -> u16
    requires { port < 128 }
    ensures { result ≡ port * 256 + byte }
{
    (port * 256 + byte as u32) as u16
}

// The list with what an inspection handed over in its next free place; how many places are used then.
#[tactic(auto, unfolding(crate::specs::Sweep::entry_of, crate::specs::Sweep::entered, ground::specs::Choose::pick, ground::specs::Choose::bit))]
fn enter(list: &mut [u16], used: u32, a: Answer) -> u32
    requires port_bound { a.port < 128 }
    requires used_in_bounds { used < length list.old }
    requires used_bound { used < 4096 }
    ensures { Entered (answer_of a) used list.old result list.new }
{
    if let Some(byte) = a.sent {
        list[used as usize] = entry_of(a.port, byte);
        return used + 1;
    }
    used
}

// What a sweep answers that is not refused.
fn swept(made: u32, used: u32, u: Mux) -> Replied
    ensures { replied_of u (Ok result) ≡ swept made used u }
{
    Replied {
        reply: Reply {
            value: 0,
            answer: nothing(),
            made,
            used,
        },
        mux: u,
    }
}

// As many inspections as the rule asks, of a unit that runs: one that raises an interrupt is the last.
fn go(mut u: Mux, mem: &mut Memory, n: u32, list: &mut [u16]) -> Replied
    requires sound { Sound u }
    requires running { u.runs ≡ true }
    requires n_bound { n ≤ MOST-INSPECTIONS }
    requires n_in_bounds { n ≤ length list.old }
    ensures { outcome (replied_of u (Ok result)) mem.new list.new ≡ arrived_at (sweep_from n (set_out u mem.old list.old)) }
{
    let mut used = 0;
    for made in 0..n {
        let answer = take_turn(&mut u, mem);
        used = enter(list, used, answer);
        if answer.raised {
            return swept(made + 1, used, u);
        }
    }
    swept(n, used, u)
}

// A sweep of n inspections: a stopped unit makes none.
#[tactic(auto, using(unit::proofs::Found::stops, unit::proofs::Found::passes, crate::proofs::Way::sound, crate::proofs::Way::whole, crate::proofs::Way::few, crate::proofs::Way::places, crate::proofs::Way::stands), unfolding(crate::specs::Sweep::sweep, ground::specs::Choose::pick))]
pub fn sweep(u: Mux, mem: &mut [u16], n: u32, list: &mut [u16]) -> Result<Replied, Refusal>
    ensures { outcome (replied_of u result) mem.new list.new ≡ sweep u mem.old n list.old }
{
    sweep_refusal(u, mem, n, list)?;
    if !u.runs {
        return Ok(swept(0, 0, u));
    }
    Ok(go(u, mem.as_mut_array::<WORDS>().unwrap(), n, list))
}
