// The stack of a Mighty Mux (000, section 2.4.7): first in, first out, forty entries, the oldest in place 0, and every freed place 0.
#![tactic(auto, unfolding(ground::specs::Choose::pick, crate::specs::Stack::entry, crate::specs::Stack::pushed, crate::specs::Stack::removed, crate::specs::Stack::popped, crate::specs::Stack::oldest, crate::specs::Stack::top))]

ghost use Rattle.std.specs.Prelude.{◌≡◌, ◌<◌};
ghost use Rattle.interrupt.specs.Stack.{entry, queued, overflowed, pushed, shifted, removed, popped, oldest, top};

use crate::status::service_marked;
use crate::{Irq, Service};
use words::codes::{PORT_ADDRESS, REAL_TIME, STACK_OVERFLOW};
use words::field::{bit, get, put};

// How many entries it has room for.
pub const DEPTH: u32 = 40;

// The entry of an interrupt.
pub fn entry(s: Service, address: u16) -> u16
    requires { address < 128 }
    ensures { result ≡ entry s address }
{
    put(service_marked(0, s), PORT_ADDRESS, address)
}

// An interrupt that finds room.
fn queue(i: Irq, e: u16) -> Irq
    requires { i.fill < 40 }
    ensures { result ≡ queued e i }
{
    let mut stack = i.stack;
    stack[i.fill as usize] = e;
    Irq {
        flag: true,
        fill: i.fill + 1,
        stack,
        ..i
    }
}

// An interrupt that finds none.
fn overflow(i: Irq) -> Irq
    ensures { result ≡ overflowed i }
{
    Irq {
        flag: true,
        lost: true,
        ..i
    }
}

// An interrupt.
pub fn push(i: Irq, e: u16) -> Irq
    ensures { result ≡ pushed e i }
{
    if i.fill < DEPTH {
        queue(i, e)
    } else {
        overflow(i)
    }
}

// Every place takes the next one's word, and the last is 0.
fn shifted(a: [u16; 40]) -> [u16; 40]
    ensures { result ≡ shifted a }
{
    let mut r = a;
    r.rotate_left(1);
    r[39] = 0;
    r
}

// The oldest entry removed, if there is one.
fn remove(i: Irq) -> Irq
    ensures { result ≡ removed i }
{
    if i.fill == 0 {
        return i;
    }
    Irq {
        fill: i.fill - 1,
        stack: shifted(i.stack),
        ..i
    }
}

// START: the oldest entry removed; the flag is on exactly where entries remain, and the lost mark stays only there.
pub fn pop(i: Irq) -> Irq
    ensures { result ≡ popped i }
{
    let left = remove(i);
    let remain = left.fill != 0;
    Irq {
        flag: remain,
        status: 0,
        lost: left.lost && remain,
        ..left
    }
}

// The oldest entry with the lost mark beside it, or 0.
fn oldest(i: Irq) -> u16
    ensures { result ≡ oldest i }
{
    if i.fill == 0 {
        return 0;
    }
    put(i.stack[0], STACK_OVERFLOW, bit(i.lost))
}

// What DIA returns: that, with the clock's bit.
pub fn top(i: Irq) -> u16
    ensures { result ≡ top i }
{
    put(oldest(i), REAL_TIME, get(i.status, REAL_TIME))
}
