// One event in words, and the last line.
ghost use Rattle.std.specs.Prelude.{◌≡◌};
ghost use Rattle.day.specs.Words.{why};

use recording::event::Event;
use recording::reading::Done;
use recording::tag::Tag;
use replay::call::call_of;
use std::fmt;
use telling::look::Before;
use telling::told::Told;
use telling::turn::Inspected;
use unit::refusal::Refusal;
use unit::reply::{Replied, Turn};
use words::byte::Memory;

// An event that was played: what was answered and left, the memory and the list after it, and what the block of the port inspected held before it.
#[derive(Clone, Copy)]
pub struct Played<'a> {
    pub event: Event,
    pub answered: Result<Replied, Refusal>,
    pub mem: &'a Memory,
    pub list: &'a [u16],
    pub before: Before,
}

impl Played<'_> {
    // An inspection, by what it served; that of a stopped unit names no port.
    fn write_inspected<W: fmt::Write>(
        &self,
        f: &mut fmt::Formatter<W>,
        r: &Replied,
    ) -> fmt::Result {
        if let Turn::Nothing = r.reply.answer.turn {
            return write!(f, "an inspection: the unit is stopped");
        }
        let told = Inspected {
            answer: r.reply.answer,
            setting: r.mux.setting,
            irq: r.mux.irq,
            mem: self.mem,
            before: self.before,
        };
        write!(f, "{told}")
    }

    // A call and what it answered.
    fn write_call<W: fmt::Write>(&self, f: &mut fmt::Formatter<W>) -> fmt::Result {
        let told = Told {
            call: call_of(self.event),
            answered: self.answered,
            list: self.list,
        };
        write!(f, "{told}")
    }
}

impl fmt::Display for Played<'_> {
    fn fmt<W: fmt::Write>(&self, f: &mut fmt::Formatter<W>) -> fmt::Result {
        let e = self.event;
        match (Tag::try_from(e.tag), &self.answered) {
            (Ok(Tag::HostWrite), _) => write!(
                f,
                "host write, word {}: octal {:06o}",
                e.first,
                e.second % 65536
            ),
            (Ok(Tag::Inspection), Ok(r)) => self.write_inspected(f, r),
            _ => self.write_call(f),
        }
    }
}

// Why a field is refused, by the number that a `Done` has of it.
#[tactic(auto, unfolding(ground::specs::Choose::pick, crate::specs::Words::why))]
fn why(code: u8) -> &'static str
    ensures { result.now ≡ why code }
{
    match code {
        13 => "no field has this tag",
        14 => "a field of this tag has another length",
        15 => "the recording ends within this field",
        _ => "a part of this field has a value that it cannot have",
    }
}

// The last line: how many events there were, or which field is refused, by its number and the offset of its tag.
#[derive(Clone, Copy)]
pub struct Ended(pub Done);

impl fmt::Display for Ended {
    fn fmt<W: fmt::Write>(&self, f: &mut fmt::Formatter<W>) -> fmt::Result {
        let Done { code, at, count } = self.0;
        if code == 0 {
            return write!(f, "{count} events, all read");
        }
        let why = why(code);
        write!(f, "refused {code} at offset {at}: {why}")
    }
}
