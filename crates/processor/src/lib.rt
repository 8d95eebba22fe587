// What the processor does: reset, IOPLS, START, DOC, DOB, DIA, DIAS, and the 10 ms tick. One call for all of them, for they are refused alike.
#![tactic(auto)]

pub mod orders;

ghost use Rattle.std.specs.Prelude.{◌≡◌, map};
ghost use Rattle.ground.specs.Choose.{pick};
ghost use Rattle.interrupt.specs.Interrupt.{ticked};
ghost use Rattle.unit.specs.Reply.{replied_of};
ghost use Rattle.processor.specs.Processor.{reset_port, switched, reset_unit, value_of, after, order};

use crate::orders::Order;
use interrupt::{Irq, Kind};
use unit::mux::{Mux, Port};
use unit::refusal::{Refusal, sound_refusal};
use unit::reply::{Replied, accepted};
use unit::setup::no_character;
use words::codes::SPEED;
use words::field::put;

// The port after a reset.
#[tactic(auto, using(words::specs::laws::Field::put_zero), unfolding(crate::specs::Processor::reset_port))]
fn reset_port(q: Port) -> Port
    ensures { result ≡ reset_port q }
{
    Port {
        held: false,
        ch: no_character(),
        empty: true,
        control: put(q.control as u16, SPEED, 0) as u8,
        devcontrol: true,
        ..q
    }
}

// The record with other switches and another interrupt side.
fn switched(u: Mux, runs: bool, clock: bool, irq: Irq) -> Mux
    ensures { result ≡ switched u runs clock irq }
{
    Mux {
        runs,
        clock,
        irq,
        ..u
    }
}

// Every port of the array after a reset, those past P as well: none of them can be seen.
// A loop in place, since the array's map takes five times as many instructions.
fn reset_ports(ports: &mut [Port; 128])
    ensures { ports.new ≡ map reset_port ports.old }
{
    for q in &mut ports[..] {
        *q = reset_port(*q);
    }
}

// The record after a reset.
fn reset_unit(u: Mux) -> Mux
    ensures { result ≡ reset_unit u }
{
    let mut v = Mux {
        pos: 0,
        ..switched(u, false, false, interrupt::cleared(u.irq))
    };
    reset_ports(&mut v.port);
    v
}

// The interrupt side after a tick, with the clock on or off.
#[tactic(auto, unfolding(ground::specs::Choose::pick))]
fn clocked(clock: bool, i: Irq) -> Irq
    ensures { result ≡ pick clock (ticked i) i }
{
    if clock { interrupt::tick(i) } else { i }
}

// What the order returns beside its number: DIA and DIAS the status word, or the oldest entry, as they find it, the others 0.
fn value_of(o: Order, k: Kind, i: Irq) -> u16
    ensures { result ≡ value_of o k i }
{
    match o {
        Order::Dia | Order::Dias => interrupt::dia(k, i),
        _ => 0,
    }
}

// The record after the order.
#[tactic(auto, unfolding(crate::specs::Processor::after))]
fn after(u: Mux, o: Order) -> Mux
    ensures { result ≡ after o u }
{
    let s = u.setting;
    let k = s.kind;
    let i = u.irq;
    match o {
        Order::Reset => reset_unit(u),
        Order::Iopls => switched(u, u.runs, true, i),
        Order::Start => switched(u, u.runs, u.clock, interrupt::start(k, i)),
        Order::Doc => switched(u, true, u.clock, i),
        Order::Dob => switched(u, false, u.clock, i),
        Order::Dia => u,
        Order::Dias => switched(u, u.runs, u.clock, interrupt::start(k, i)),
        Order::Tick => switched(u, u.runs, u.clock, clocked(u.clock, i)),
    }
}

// An order: refused for an unsound record.
#[tactic(auto, using(unit::proofs::Found::refuses, unit::proofs::Found::takes), unfolding(crate::specs::Processor::order))]
pub fn order(u: Mux, o: Order) -> Result<Replied, Refusal>
    ensures { replied_of u result ≡ order u o }
{
    sound_refusal(u)?;
    let s = u.setting;
    let k = s.kind;
    let i = u.irq;
    Ok(accepted(value_of(o, k, i), after(u, o)))
}
