// A session that a person can watch: three ports, a name with a glottal stop typed at the first, and in plain words what each inspection does; at a unit of the 1974 set of special codes, and at one
// whose school chose to have the glottal stop ordinary. Then a short one at a Mighty Mux, whose interrupts wait in its stack.
// Whether a line could be printed changes nothing of a session, so what printing answers is let go.
#![tactic(auto)]

mod blocks;
mod host;

ghost use Rattle.std.specs.Prelude.{◌≡◌};
ghost use Rattle.unit.specs.Reply.{world, outcome, replied_of};
ghost use Rattle.sweep.specs.Sweep.{sweep};
ghost use Rattle.watch.specs.Session.{lent, after_sweeps};

use crate::host::Host;
use calls::call::{What, asking};
use unit::mux::Mux;
use unit::refusal::{MOST_INSPECTIONS, Refusal};
use unit::reply::Replied;
use words::byte::Memory;
use words::special::{dictionary_set, set_1974};

// A sweep of n inspections.
#[tactic(auto, unfolding(calls::specs::Calls::step_of))]
fn swept(u: Mux, mem: &mut Memory, list: &mut [u16], n: u32) -> Result<Replied, Refusal>
    ensures { outcome (replied_of u result) mem.new list.new ≡ sweep u mem.old n list.old }
{
    door::call_by_value(u, mem, list, asking(What::Sweep { n }))
}

// The settled example of sweeps: one of none, one of the most and one of one more, each of the same unit.
#[tactic(auto, unfolding(crate::specs::Session::after_sweep, crate::specs::Session::after_sweeps))]
fn say_sweeps(rt: &impl Print, u: Mux, mem: &mut Memory, list: &mut [u16])
    ensures { lent mem.new list.new ≡ after_sweeps u (lent mem.old list.old) }
{
    let none = swept(u, mem, list, 0);
    let most = swept(u, mem, list, MOST_INSPECTIONS);
    let over = swept(u, mem, list, MOST_INSPECTIONS + 1);
    let made = none.map_or(0, |r| r.reply.made);
    let verdict = if most.is_ok() { "accepted" } else { "refused" };
    let number = over.err().map_or(0, |refusal| u8::from(refusal));
    let _ = println!(rt; "sweep of 0 returns {made}; 4096 {verdict}; 4097 gives {number}");
}

fn main(rt: HostRuntime) {
    let mut list = [0u16; 4096];
    let _ = println!(rt; "the 1974 set, in which octal 174 is special");
    let mut special = Host::new([0; 32768]);
    special.session(&rt, set_1974());
    let _ = println!(rt; "\nthe same set, but for octal 174, which is ordinary");
    let mut ordinary = Host::new([0; 32768]);
    ordinary.session(&rt, dictionary_set());
    let _ = println!(rt;
        "\noctal 174 special, buffer from byte 2001: {}",
        special.buffer()
    );
    let _ = println!(rt;
        "octal 174 ordinary, buffer from byte 2001: {}",
        ordinary.buffer()
    );
    say_sweeps(&rt, special.unit, &mut special.memory, &mut list);
    let _ = println!(rt;
        "\na Mighty Mux of 3 ports runs; the host asks for port control at each, and reads no status until all are done"
    );
    Host::new([0; 32768]).mighty(&rt);
}
