// A recording that comes in parts, read byte by byte (document 02, K8).
#![tactic(auto, unfolding(ground::specs::Choose::pick, crate::specs::Stream::counted, crate::specs::Stream::grown, crate::specs::Stream::took, crate::specs::Stream::ended))]

ghost use Rattle.std.specs.Prelude.{◌≡◌, ◌≤◌};
ghost use Rattle.recording.specs.Fault.{code_of};
ghost use Rattle.stream.specs.Stream.{begun, judged, opened, grown, took, ready, event, ended};

use recording::event::Event;
use recording::fault::Fault;
use recording::field::{check_field, event_in};
use recording::reading::Done;

// What is at fault in a field of which more bytes must come.
const CUT_SHORT: u8 = Fault::CutShort as u8;

// The bytes of the field that is being read, and how many they are; what is at fault in them so far, by its number (cut short: more must come; 0: the field is whole);
// the offset of its tag; and how many fields were whole.
#[derive(Clone, Copy)]
pub struct Stream {
    pub field: [u8; 144],
    pub fill: usize,
    pub code: u8,
    pub at: usize,
    pub count: usize,
}

// Before the first byte: no field, and nothing at fault.
pub fn begin() -> Stream
    ensures { result ≡ begun }
{
    Stream {
        field: [0; 144],
        fill: 0,
        code: 0,
        at: 0,
        count: 0,
    }
}

// The number of what is at fault, or 0.
fn number(found: Result<(), Fault>) -> u8
    ensures { result ≡ code_of found }
{
    match found {
        Ok(()) => 0,
        Err(fault) => u8::from(fault),
    }
}

// What is known once a field has so many bytes: one field more, where nothing is at fault in this one.
fn judged(field: [u8; 144], fill: usize, at: usize, count: usize) -> Stream
    requires { fill ≤ 144 }
    ensures { result ≡ judged field fill at count }
{
    let code = number(check_field(&field[..fill]));
    Stream {
        field,
        fill,
        code,
        at,
        count: if code == 0 {
            count.wrapping_add(1)
        } else {
            count
        },
    }
}

// The first byte of a field, right after the last one.
fn opened(s: Stream, b: u8) -> Stream
    ensures { result ≡ opened s b }
{
    let mut field = s.field;
    field[0] = b;
    judged(field, 1, s.at.wrapping_add(s.fill), s.count)
}

// One more byte of a field. None is longer than the places that there are.
fn grown(s: Stream, b: u8) -> Stream
    ensures { result ≡ grown s b }
{
    let fill = s.fill;
    if fill < 144 {
        let mut field = s.field;
        field[fill] = b;
        return judged(field, fill + 1, s.at, s.count);
    }
    s
}

// One byte of the recording. After a fault nothing changes.
pub fn take(s: Stream, b: u8) -> Stream
    ensures { result ≡ took s b }
{
    if s.code == 0 {
        return opened(s, b);
    }
    if s.code == CUT_SHORT {
        return grown(s, b);
    }
    s
}

// Whether the last byte made a field whole.
pub fn ready(s: Stream) -> bool
    ensures { result ≡ ready s }
{
    (s.code == 0) & (0 < s.fill)
}

// The event of a field that is whole.
pub fn event(s: Stream) -> Event
    ensures { result ≡ event s }
{
    event_in(&s.field)
}

// The answer when no byte follows: a field that is not whole is cut short.
pub fn end(s: Stream) -> Done
    ensures { result ≡ ended s }
{
    if s.code == 0 {
        return Done {
            code: 0,
            at: 0,
            count: s.count,
        };
    }
    Done {
        code: s.code,
        at: s.at,
        count: 0,
    }
}
