// One event played, by value: what it answers and leaves.
#![tactic(auto, unfolding(ground::specs::Choose::pick, crate::specs::Replay::room, crate::specs::Replay::begun))]

ghost use Rattle.std.specs.Prelude.{◌≡◌, min};
ghost use Rattle.unit.specs.Reply.{world, outcome, replied_of};
ghost use Rattle.recording.specs.Pass.{kept};
ghost use Rattle.replay.specs.Replay.{put, room, called, plays, played_of, begun, replayed};

use crate::call::call_of;
use recording::event::{Event, check_event};
use recording::tag::Tag;
use unit::mux::Mux;
use unit::refusal::Refusal;
use unit::reply::{Replied, answered, nothing};
use unit::setup::no_mux;
use words::byte::WORDS;

// The tag of a host write.
pub const HOST_WRITE: u8 = Tag::HostWrite as u8;

// The tag of a sweep.
pub const SWEEP: u8 = Tag::Sweep as u8;

// How a replay stands: the refusal number or 0, and the record.
#[derive(Clone, Copy)]
pub struct Played {
    pub code: u8,
    pub mux: Mux,
}

// A word written into the memory, where it has that word.
fn put(mem: &mut [u16], address: u32, word: u32)
    ensures { mem.new ≡ put mem.old address word }
{
    let at = address as usize;
    if at < mem.len() {
        mem[at] = (word % 65536) as u16;
    }
}

// How many places of the list an event has: a sweep's recorded length, no more than there are.
fn room(e: Event, places: usize) -> usize
    ensures { result ≡ min (room e) places }
{
    if e.tag == SWEEP {
        return (e.second as usize).min(places);
    }
    0
}

// A call with the first places of the list.
fn call_lent(u: Mux, mem: &mut [u16], list: &mut [u16], e: Event) -> Result<Replied, Refusal>
    ensures { outcome (replied_of u result) mem.new list.new ≡ called (world u mem.old) list.old e }
{
    let k = room(e, list.len());
    calls::step(u, mem, &mut list[..k], call_of(e))
}

// One event: the answer of its call, the record, the memory and the list; an event that the writer would refuse does nothing.
pub fn play(u: Mux, mem: &mut [u16], list: &mut [u16], e: Event) -> Result<Replied, Refusal>
    ensures { outcome (replied_of u result) mem.new list.new ≡ plays (world u mem.old) list.old e }
{
    if check_event(e).is_err() {
        return Ok(answered(nothing(), u));
    }
    if e.tag == HOST_WRITE {
        put(mem, e.first, e.second);
        return Ok(answered(nothing(), u));
    }
    call_lent(u, mem, list, e)
}

// A record, or a refusal, which has a record of zeros.
fn stands(found: Result<Mux, Refusal>) -> Played
    ensures { result ≡ played_of found }
{
    match found {
        Ok(mux) => Played { code: 0, mux },
        Err(refusal) => Played {
            code: u8::from(refusal),
            mux: no_mux(),
        },
    }
}

// A replay at its start: a record of zeros, and 7 where the memory has another length.
pub fn begin(words: usize) -> Played
    ensures { result ≡ begun words }
{
    if words != WORDS {
        return stands(Err(Refusal::BadMemory));
    }
    stands(Ok(no_mux()))
}

// One event of a replay, with a list of zeros of its own; no accepted sweep uses more than 4096 places. What the call refuses changes nothing.
pub fn replay_one(s: Played, mem: &mut [u16], e: Event) -> Played
    ensures { kept result mem.new ≡ replayed (kept s mem.old) e }
{
    if s.code != 0 {
        return s;
    }
    let u = s.mux;
    let mut list = [0u16; 4096];
    match play(u, mem, &mut list, e) {
        Ok(r) => Played {
            code: 0,
            mux: r.mux,
        },
        Err(_) => Played { code: 0, mux: u },
    }
}
