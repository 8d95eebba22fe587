// Writing, event by event: a pass over the events that checks them, and one that puts them into the bytes lent. The passes themselves are `tape`'s.
#![tactic(auto, unfolding(ground::specs::Choose::pick, crate::specs::Pass::counted, crate::specs::Pass::checked_on, crate::specs::Pass::told))]

ghost use Rattle.std.specs.Prelude.{◌≡◌, ◌+◌, nat_le};
ghost use Rattle.recording.specs.Fault.{number_of};
ghost use Rattle.recording.specs.Pass.{kept, first_pass, settled, counted, faulted, checked_on, may_put, put_on, passed, second_pass, told};

use crate::event::{Event, check_event};
use crate::fault::Fault;
use crate::field::put_field;
use crate::layout::field_length;
use crate::reading::Done;

// How far a pass has come: whether it puts, what is at fault and where, the offset, and how many bytes are lent.
#[derive(Clone, Copy)]
pub struct Pass {
    pub puts: bool,
    pub code: u8,
    pub found: usize,
    pub at: usize,
    pub room: usize,
}

// The pass that checks, at its start.
pub fn first_pass(room: usize) -> Pass
    ensures { result ≡ first_pass room }
{
    Pass {
        puts: false,
        code: 0,
        found: 0,
        at: 0,
        room,
    }
}

// Whether so many bytes more have room. The sum might not fit a number.
fn fits(room: usize, at: usize, n: usize) -> bool
    ensures { result ≡ nat_le (at + n) room }
{
    at.checked_add(n).is_some_and(|end| end <= room)
}

// Whether a fault is found already, before which nothing comes: no room is none of these.
fn settled(code: u8) -> bool
    ensures { result ≡ settled code }
{
    (code != 0) & (code != Fault::NoRoom as u8)
}

// A field of n bytes counted; the first that has no room is kept in mind.
fn counted(p: Pass, n: usize) -> Pass
    ensures { result ≡ counted p n }
{
    let q = Pass {
        at: p.at.wrapping_add(n),
        ..p
    };
    if (p.code != 0) | fits(p.room, p.at, n) {
        return q;
    }
    Pass {
        code: u8::from(Fault::NoRoom),
        found: p.at,
        ..q
    }
}

// A fault found here.
fn faulted(p: Pass, fault: Fault) -> Pass
    ensures { result ≡ faulted p (number_of fault) }
{
    Pass {
        code: u8::from(fault),
        found: p.at,
        ..p
    }
}

// One event checked.
fn checked_on(p: Pass, e: Event) -> Pass
    ensures { result ≡ checked_on p e }
{
    if settled(p.code) {
        return p;
    }
    match check_event(e) {
        Ok(()) => counted(p, field_length(e.tag)),
        Err(fault) => faulted(p, fault),
    }
}

// Whether an event is put: nothing is at fault, in it either, and it has room.
fn may_put(p: Pass, room: usize, e: Event) -> bool
    ensures { result ≡ may_put p room e }
{
    let good = (p.code == 0) & check_event(e).is_ok();
    good & fits(room, p.at, field_length(e.tag))
}

// One event put.
fn put_on(p: Pass, out: &mut [u8], e: Event) -> Pass
    ensures { kept result out.new ≡ put_on (kept p out.old) e }
{
    if may_put(p, out.len(), e) {
        return Pass {
            at: put_field(out, p.at, e),
            ..p
        };
    }
    p
}

// One event of a pass.
pub fn pass_one(p: Pass, out: &mut [u8], e: Event) -> Pass
    ensures { kept result out.new ≡ passed (kept p out.old) e }
{
    if p.puts {
        return put_on(p, out, e);
    }
    checked_on(p, e)
}

// The pass that puts, at its start; where something is at fault it puts nothing.
pub fn second_pass(p: Pass) -> Pass
    ensures { result ≡ second_pass p }
{
    Pass {
        puts: true,
        at: 0,
        ..p
    }
}

// What writing answers, by the pass that checked.
pub fn told(p: Pass) -> Done
    ensures { result ≡ told p }
{
    if p.code != 0 {
        return Done {
            code: p.code,
            at: p.found,
            count: 0,
        };
    }
    Done {
        code: 0,
        at: 0,
        count: p.at,
    }
}
