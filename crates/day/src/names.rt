// The lines that pupils type: where each began in its buffer, and what stands there so far.
ghost use Rattle.std.specs.Prelude.{◌≡◌};
ghost use Rattle.day.specs.Names.{view_of, begins_of, was_of, is_of, look_of, viewed, moved, begins, answer_code};

use recording::event::Event;
use recording::tag::Tag;
use std::{array, fmt};
use telling::look::word_of;
use telling::say::Bytes;
use telling::turn::InIcw;
use unit::mux::Setting;
use unit::refusal::Refusal;
use unit::reply::Replied;
use words::byte::Memory;
use words::codes::{IBP, ICW};

// The words of a port that are looked at: its input pointer and its ICW.
#[derive(Clone, Copy, PartialEq, Eq)]
pub struct Look {
    pub ibp: u16,
    pub icw: u16,
}

// What stands in port p's.
fn look_at(s: Setting, mem: &[u16], p: u32) -> Look
    ensures { result ≡ look_of s mem.now p }
{
    Look {
        ibp: word_of(s, mem, p, IBP),
        icw: word_of(s, mem, p, ICW),
    }
}

// What stands in those of every port, a place past the last port too.
pub fn viewed(s: Setting, mem: &[u16]) -> [Look; 128]
    ensures { view_of result ≡ viewed s mem.now }
{
    array::from_fn(|p| look_at(s, mem, p as u32))
}

// What an event did to a port: where its line began before it, and what stood in its words before and after it.
#[derive(Clone, Copy)]
pub struct Change {
    pub begin: u16,
    pub was: Look,
    pub is: Look,
}

impl Change {
    // Where the line begins after a host write: a pointer that the host wrote begins a line.
    #[tactic(auto, unfolding(crate::specs::Names::moved, ground::specs::Choose::pick))]
    fn begun(self) -> u16
        ensures { result ≡ moved self.begin self.was.ibp self.is.ibp }
    {
        if self.was.ibp == self.is.ibp {
            self.begin
        } else {
            self.is.ibp
        }
    }
}

// What an event did to every port.
pub fn changed(begin: [u16; 128], was: [Look; 128], is: [Look; 128]) -> [Change; 128]
    ensures begin { begins_of result ≡ begin }
    ensures was { was_of result ≡ view_of was }
    ensures is { is_of result ≡ view_of is }
{
    array::from_fn(|p| Change {
        begin: begin[p],
        was: was[p],
        is: is[p],
    })
}

// Where the lines begin, after an event: anew after a setup that is not refused.
pub fn begins(e: Event, answered: &Result<Replied, Refusal>, changes: [Change; 128]) -> [u16; 128]
    ensures { result ≡ begins e.tag (answer_code answered.now) (begins_of changes) (was_of changes).ibp (is_of changes).ibp }
{
    if (e.tag == Tag::Setup as u8) & answered.is_ok() {
        return changes.map(|c| c.is.ibp);
    }
    if e.tag == Tag::HostWrite as u8 {
        return changes.map(|c| c.begun());
    }
    changes.map(|c| c.begin)
}

// What an event did to the lines, with the setting and the memory that it left.
#[derive(Clone, Copy)]
pub struct Changes<'a> {
    pub event: Event,
    pub setting: Setting,
    pub mem: &'a Memory,
    pub changes: [Change; 128],
}

impl Changes<'_> {
    // What stands in a port's line so far, at most its last 64 bytes, where its pointer moved.
    fn write_line<W: fmt::Write>(
        &self,
        f: &mut fmt::Formatter<W>,
        p: usize,
        c: Change,
    ) -> fmt::Result {
        let mem = self.mem;
        let last = c.is.ibp;
        if c.was.ibp == last {
            return Ok(());
        }
        let cut = u32::from(c.begin) + 64 < u32::from(last);
        let before = if cut { last - 64 } else { c.begin };
        let dots = if cut { ".." } else { "" };
        writeln!(
            f,
            "    port {p}, the line so far: '{dots}{}'",
            Bytes { mem, before, last }
        )
    }

    // What a sweep put into a port's ICW.
    fn write_icw<W: fmt::Write>(
        &self,
        f: &mut fmt::Formatter<W>,
        p: usize,
        c: Change,
    ) -> fmt::Result {
        let icw = c.is.icw;
        if c.was.icw == icw {
            return Ok(());
        }
        let codes = self.setting.special;
        writeln!(f, "    port {p}: {}", InIcw { icw, codes })
    }

    // What a call did to each port.
    fn write_ports<W: fmt::Write>(&self, f: &mut fmt::Formatter<W>, swept: bool) -> fmt::Result {
        let ports = self.setting.ports as usize;
        for (p, c) in self.changes.iter().enumerate().take(ports) {
            self.write_line(f, p, *c)?;
            if swept {
                self.write_icw(f, p, *c)?;
            }
        }
        Ok(())
    }
}

// A setup and a host write did nothing to them.
impl fmt::Display for Changes<'_> {
    fn fmt<W: fmt::Write>(&self, f: &mut fmt::Formatter<W>) -> fmt::Result {
        match Tag::try_from(self.event.tag) {
            Ok(Tag::Setup | Tag::HostWrite) => Ok(()),
            Ok(Tag::Sweep) => self.write_ports(f, true),
            _ => self.write_ports(f, false),
        }
    }
}
