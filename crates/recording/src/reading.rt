// Reading on from field to field: what is at fault in some bytes, and how many events they hold.
#![tactic(auto, unfolding(ground::specs::Choose::pick, crate::specs::Scan::scan_one, crate::specs::Scan::one_at))]

ghost use Rattle.std.specs.Prelude.{◌≡◌, ◌+◌, ◌^◌, ◌<◌, ◌↔◌, length, drop, IsSome};
ghost use Rattle.recording.specs.Field.{field_code};
ghost use Rattle.recording.specs.Scan.{done, begun, done_of, Comes, one_of, scan_one, scanned, Checks, one_at};

use crate::event::Event;
use crate::fault::{Fault, Refused};
use crate::field::{check_field, event_in, tag_in};
use crate::layout::field_length;

// A refusal number or 0, the offset of the tag at fault, and how much was written.
#[derive(Clone, Copy)]
pub struct Done {
    pub code: u8,
    pub at: usize,
    pub count: usize,
}

// How far reading on has come: the offset, and how many fields there were.
#[derive(Clone, Copy)]
struct Reach {
    at: usize,
    count: usize,
}

// An event, and the offset after its field.
#[derive(Clone, Copy)]
pub struct One {
    pub event: Event,
    pub next: usize,
}

// One field more.
fn scan_one(bytes: &[u8], r: Reach) -> Result<Reach, Refused>
    requires at_in_bounds { r.at < length bytes.now }
    requires count_bound { r.count + 1 < 2 ^ 64 }
    ensures { Comes result (scan_one bytes.now (done 0 r.at r.count)) }
{
    let rest = &bytes[r.at..];
    check_field(rest).map_err(|fault| Refused { fault, at: r.at })?;
    Ok(Reach {
        at: r.at + field_length(tag_in(rest)),
        count: r.count + 1,
    })
}

// At most so many fields from the start on, up to the first at fault.
fn scan(bytes: &[u8], most: usize) -> Result<Reach, Refused>
    ensures { Comes result (scanned most bytes.now begun) }
{
    let mut r = Reach { at: 0, count: 0 };
    for _ in 0..most {
        if bytes.len() <= r.at {
            return Ok(r);
        }
        r = scan_one(bytes, r)?;
    }
    Ok(r)
}

// What reading into a list of so many places answers: how many events there are, or what is refused.
pub fn check(bytes: &[u8], room: usize) -> Result<usize, Refused>
    ensures { Checks bytes.now room (done_of result) }
{
    scan(bytes, bytes.len())?;
    let part = scan(bytes, room)?;
    if part.at < bytes.len() {
        return Err(Refused {
            fault: Fault::NoRoom,
            at: part.at,
        });
    }
    Ok(part.count)
}

// The event of the field at an offset, and the offset after it, if a good one stands there.
pub fn read_one(bytes: &[u8], at: usize) -> Option<One>
    ensures event { one_of at result ≡ one_at bytes.now at }
    ensures good { IsSome result ↔ (field_code (drop at bytes.now) ≡ 0) }
{
    if bytes.len() <= at {
        return None;
    }
    let rest = &bytes[at..];
    check_field(rest).ok()?;
    Some(One {
        event: event_in(rest),
        next: at + field_length(tag_in(rest)),
    })
}
