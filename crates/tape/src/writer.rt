// Writing a list of events into lent bytes.
ghost use Rattle.std.specs.Prelude.{◌≡◌, take};
ghost use Rattle.ground.specs.Machine.{run};
ghost use Rattle.recording.specs.Scan.{done_of, Answers};
ghost use Rattle.recording.specs.Pass.{kept, passed, wrote, write};

use recording::event::Event;
use recording::fault::{Fault, Refused};
use recording::pass::{Pass, first_pass, pass_one, second_pass, told};
use recording::reading::Done;

// One pass over the events.
pub fn pass_all(v: Pass, out: &mut [u8], events: &[Event]) -> Pass
    ensures { kept result out.new ≡ run passed (kept v out.old) events.now }
{
    let mut w = v;
    for e in events {
        w = pass_one(w, out, *e);
    }
    w
}

// An answer by its number, as a result.
fn answer(d: Done) -> Result<usize, Refused>
    requires { Answers d }
    ensures { done_of result ≡ d }
{
    if d.code == 0 {
        return Ok(d.count);
    }
    let fault = Fault::try_from(d.code).unwrap();
    Err(Refused { fault, at: d.at })
}

// Writing: a pass that checks, and a pass that puts where nothing was at fault.
pub fn write(events: &[Event], out: &mut [u8]) -> Result<usize, Refused>
    ensures { wrote (done_of result) out.new ≡ write events.now out.old }
{
    let checked = pass_all(first_pass(out.len()), out, events);
    pass_all(second_pass(checked), out, events);
    answer(told(checked))
}

// The same, of the first of eight events by value: whoever calls it needs no walk by hand.
pub fn write_eight(events: [Event; 8], lent: usize, out: &mut [u8]) -> Result<usize, Refused>
    ensures { wrote (done_of result) out.new ≡ write (take lent events) out.old }
{
    write(&events[..lent.min(8)], out)
}
