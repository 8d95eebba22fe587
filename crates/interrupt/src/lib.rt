// The interrupt side of the unit: the flag, and the status word of an EDS-8 or the stack of a Mighty Mux, and all that changes them. No crate of the multiplexer reads or writes inside it; the digests and pokes of driver do.
#![tactic(auto, unfolding(crate::specs::Interrupt::cleared, crate::specs::Interrupt::unsound, crate::specs::Interrupt::merged, crate::specs::Interrupt::raised, crate::specs::Interrupt::started, crate::specs::Interrupt::ticked, crate::specs::Interrupt::shown))]

pub mod stack;
pub mod status;

ghost use Rattle.std.specs.Prelude.{◌≡◌, ◌<◌};
ghost use Rattle.interrupt.specs.Interrupt.{fresh, cleared, unsound, merged, raised, quieted, started, ticked, shown};

use crate::stack::DEPTH;
use words::codes::REAL_TIME;
use words::field::put;

// The two kinds of unit.
#[derive(Clone, Copy, PartialEq, Eq, Debug)]
pub enum Kind {
    Eds8,
    MightyMux,
}

// The two services of a port, each of which may raise an interrupt.
#[derive(Clone, Copy, PartialEq, Eq, Debug)]
pub enum Service {
    Input,
    Output,
}

// The interrupt flag and the status word; of a Mighty Mux the lost mark, how many entries are stacked, and the stack, the oldest entry first.
// The stack is an array with its fill beside it, and no Vec or type of its own: no heap, and `door::call` takes any record, also one of more entries, which refusal 6 is for.
#[derive(Clone, Copy)]
pub struct Irq {
    pub flag: bool,
    pub status: u16,
    pub lost: bool,
    pub fill: u32,
    pub stack: [u16; 40],
}

// A new unit's, of either kind: flag and status 0, nothing lost, no entry.
pub fn fresh() -> Irq
    ensures { result ≡ fresh }
{
    Irq {
        flag: false,
        status: 0,
        lost: false,
        fill: 0,
        stack: [0; 40],
    }
}

// After a reset.
pub fn cleared(i: Irq) -> Irq
    ensures { result ≡ cleared i }
{
    fresh()
}

// Whether it is one that no unit can have: more entries than the stack has places, of either kind.
pub fn unsound(i: Irq) -> bool
    ensures { result ≡ unsound i }
{
    DEPTH < i.fill
}

// An interrupt of an EDS-8: the status word takes it up.
fn merge(i: Irq, s: Service, address: u16) -> Irq
    requires { address < 128 }
    ensures { result ≡ merged s address i }
{
    Irq {
        flag: true,
        status: status::status_after(i.status, s, address),
        ..i
    }
}

// An interrupt raised by the port of that address.
// The address is a u16 with its bound in a clause, here and below, and no type that keeps it: docs/CLAIMS.md names `raise` and `address_at`, which may take no type with an invariant.
pub fn raise(k: Kind, i: Irq, s: Service, address: u16) -> Irq
    requires { address < 128 }
    ensures { result ≡ raised k s address i }
{
    match k {
        Kind::Eds8 => merge(i, s, address),
        Kind::MightyMux => stack::push(i, stack::entry(s, address)),
    }
}

// START of an EDS-8.
fn quiet(i: Irq) -> Irq
    ensures { result ≡ quieted i }
{
    Irq {
        flag: false,
        status: 0,
        ..i
    }
}

// START.
pub fn start(k: Kind, i: Irq) -> Irq
    ensures { result ≡ started k i }
{
    match k {
        Kind::Eds8 => quiet(i),
        Kind::MightyMux => stack::pop(i),
    }
}

// A tick with the clock on.
pub fn tick(i: Irq) -> Irq
    ensures { result ≡ ticked i }
{
    Irq {
        flag: true,
        status: put(i.status, REAL_TIME, 1),
        ..i
    }
}

// What DIA returns.
pub fn dia(k: Kind, i: Irq) -> u16
    ensures { result ≡ shown k i }
{
    match k {
        Kind::Eds8 => i.status,
        Kind::MightyMux => stack::top(i),
    }
}
