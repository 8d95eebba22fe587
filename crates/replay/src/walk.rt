// The events of a lent list played one after the other: a thin walk that copies each event out and plays it.
ghost use Rattle.std.specs.Prelude.{◌≡◌, length, take};
ghost use Rattle.ground.specs.Machine.{run};
ghost use Rattle.recording.specs.Pass.{kept};
ghost use Rattle.replay.specs.Replay.{begun, replayed};

use crate::play::{Played, begin, replay_one};
use recording::event::Event;

// The events played on from where a replay stands.
pub fn replay_on(s: Played, mem: &mut [u16], events: &[Event]) -> Played
    ensures { kept result mem.new ≡ run replayed (kept s mem.old) events.now }
{
    let mut w = s;
    for e in events {
        w = replay_one(w, mem, *e);
    }
    w
}

// The events played from a record of zeros.
pub fn replay(mem: &mut [u16], events: &[Event]) -> Played
    ensures { kept result mem.new ≡ run replayed (kept (begun (length mem.old)) mem.old) events.now }
{
    let s = begin(mem.len());
    replay_on(s, mem, events)
}

// The first of eight events by value, played on: whoever calls it needs no walk by hand.
pub fn replay_eight(s: Played, mem: &mut [u16], events: [Event; 8], lent: usize) -> Played
    ensures { kept result mem.new ≡ run replayed (kept s mem.old) (take lent events) }
{
    replay_on(s, mem, &events[..lent.min(8)])
}
