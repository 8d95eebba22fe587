// A turn of a port: input before output before nothing. It takes what it reads of the record, and gives what it changes.
#![tactic(auto, unfolding(ground::specs::Choose::pick, crate::specs::Turn::service, crate::specs::Turn::took, crate::specs::Turn::irq_after, crate::specs::Turn::served_turn, crate::specs::Turn::idle_turn, crate::specs::Turn::turn))]

ghost use Rattle.std.specs.Prelude.{◌≡◌, ◌<◌};
ghost use Rattle.unit.specs.Reply.{serviced, effect_of};
ghost use Rattle.unit.specs.Sound.{Fits};
ghost use Rattle.scan.specs.Turn.{service, took_output, took_input, took, irq_after, turning, turned_of, idle_as, served_turn, turn};

use interrupt::{Irq, Service, raise};
use unit::effect::Effect;
use unit::mux::{Port, Setting, address_at, block_at};
use unit::reply::{Answer, Turn};
use unit::setup::no_character;
use words::byte::Memory;

// What a turn changes: the answer, the port and the interrupt side after it.
#[derive(Clone, Copy)]
pub struct Turned {
    pub answer: Answer,
    pub port: Port,
    pub irq: Irq,
}

// The service of a port, of either kind.
fn serve(k: Service, mem: &mut Memory, at: usize, q: Port, codes: [bool; 128]) -> Effect
    requires { at < 32761 }
    ensures { serviced (effect_of result) mem.new ≡ service k codes mem.old at q }
{
    match k {
        Service::Input => input::service(mem, at, q, codes),
        Service::Output => output::service(mem, at, q, codes),
    }
}

// The port after output: a byte handed over makes the transmitter not empty.
fn took_output(q: Port, e: Effect) -> Port
    ensures { result ≡ took_output q (effect_of e) }
{
    Port {
        empty: q.empty && e.sent.is_none(),
        control: e.control,
        devcontrol: e.devcontrol,
        ..q
    }
}

// The port after input: as after output, and the held character is taken.
fn took_input(q: Port, e: Effect) -> Port
    ensures { result ≡ took_input q (effect_of e) }
{
    Port {
        held: false,
        ch: no_character(),
        ..took_output(q, e)
    }
}

// The port after a service.
fn took(k: Service, q: Port, e: Effect) -> Port
    ensures { result ≡ took k q (effect_of e) }
{
    match k {
        Service::Input => took_input(q, e),
        Service::Output => took_output(q, e),
    }
}

// A turn that serves nothing, and names its port.
fn idle_as(p: u32, q: Port, i: Irq) -> Turned
    ensures { turned_of result ≡ idle_as p q i }
{
    Turned {
        answer: Answer {
            turn: Turn::Idle,
            port: p,
            sent: None,
            raised: false,
        },
        port: q,
        irq: i,
    }
}

// The interrupt side after a service of port p.
fn irq_after(s: Setting, p: u32, i: Irq, k: Service, raised: bool) -> Irq
    requires fits { Fits s }
    requires p_lt_ports { p < s.ports }
    ensures { result ≡ irq_after s p i k raised }
{
    if raised {
        return raise(s.kind, i, k, address_at(s, p));
    }
    i
}

// A turn that goes to a service.
fn served_turn(s: Setting, p: u32, q: Port, i: Irq, k: Service, mem: &mut Memory) -> Turned
    requires fits { Fits s }
    requires p_lt_ports { p < s.ports }
    ensures { turning (turned_of result) mem.new ≡ served_turn k s p q i mem.old }
{
    let e = serve(k, mem, block_at(s, p), q, s.special);
    Turned {
        answer: Answer {
            turn: Turn::Served { service: k },
            port: p,
            sent: e.sent,
            raised: e.raised,
        },
        port: took(k, q, e),
        irq: irq_after(s, p, i, k, e.raised),
    }
}

// The turn of port p: a held character means input, otherwise an empty transmitter means output, otherwise nothing is done.
// The setting and the port's number go side by side, their two facts in clauses: docs/CLAIMS.md names `turn`, `block_at` and `address_at`, which may take no type with an invariant.
pub fn turn(s: Setting, p: u32, q: Port, i: Irq, mem: &mut Memory) -> Turned
    requires fits { Fits s }
    requires p_lt_ports { p < s.ports }
    ensures { turning (turned_of result) mem.new ≡ turn s p q i mem.old }
{
    // Early returns, since the one value of an `if .. else` is copied once more at each turn.
    if q.held {
        return served_turn(s, p, q, i, Service::Input, mem);
    }
    if q.empty {
        return served_turn(s, p, q, i, Service::Output, mem);
    }
    idle_as(p, q, i)
}
