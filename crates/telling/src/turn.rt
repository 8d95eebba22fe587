// What an inspection did.
ghost use Rattle.std.specs.Prelude.{◌≡◌, not, ◌&&◌, eqb};
ghost use Rattle.words.specs.Field.{get};
ghost use Rattle.words.specs.Codes.{INDONE, INMO, in_none, OUTDONE, OUTMO, out_control};

use crate::look::{Before, word_of};
use crate::say::Character;
use interrupt::{Irq, Service, dia};
use std::fmt;
use unit::mux::Setting;
use unit::reply::{Answer, Turn};
use words::byte::{Memory, fetch};
use words::codes::{CHARACTER, IBP, ICW, INDONE, OUTDONE};
use words::field::{get, is_set};
use words::modes::{InputMode, OutputMode, input_mode, output_mode};
use words::special::special_in;

// The character that an ICW holds, as the unit's set has it.
#[derive(Clone, Copy)]
pub struct InIcw {
    pub icw: u16,
    pub codes: [bool; 128],
}

impl fmt::Display for InIcw {
    fn fmt<W: fmt::Write>(&self, f: &mut fmt::Formatter<W>) -> fmt::Result {
        let b = get(self.icw, CHARACTER) as u8;
        if special_in(self.codes, b) {
            write!(f, "special {b:03o} in ICW")
        } else {
            write!(f, "'{}' in ICW", Character(b))
        }
    }
}

// Whether ICW asks for no input: INDONE clear and mode 01.
fn is_unasked(icw: u16) -> bool
    ensures { result ≡ not (eqb (get INDONE icw) 1) && eqb (get INMO icw) in_none }
{
    !is_set(icw, INDONE) & (input_mode(icw) == InputMode::NoInput)
}

// Whether OCW asks for port control: OUTDONE clear and mode 10.
fn is_control(ocw: u16) -> bool
    ensures { result ≡ not (eqb (get OUTDONE ocw) 1) && eqb (get OUTMO ocw) out_control }
{
    !is_set(ocw, OUTDONE) & (output_mode(ocw) == OutputMode::Control)
}

// An inspection that a running unit made: its answer, the setting, interrupt side and memory that it left, and what its port's block held before it.
#[derive(Clone, Copy)]
pub struct Inspected<'a> {
    pub answer: Answer,
    pub setting: Setting,
    pub irq: Irq,
    pub mem: &'a Memory,
    pub before: Before,
}

impl Inspected<'_> {
    // An input turn that stored nothing: the character was dropped where none was asked for, otherwise it is in ICW.
    fn write_unstored<W: fmt::Write>(&self, f: &mut fmt::Formatter<W>) -> fmt::Result {
        if is_unasked(self.before.icw) {
            return write!(f, "dropped, none is asked for");
        }
        let mem = self.mem;
        let icw = word_of(self.setting, mem, self.answer.port, ICW);
        let codes = self.setting.special;
        write!(f, "{}", InIcw { icw, codes })
    }

    // What an input turn did: the pointer stepped where a byte was stored.
    fn write_input<W: fmt::Write>(&self, f: &mut fmt::Formatter<W>) -> fmt::Result {
        let mem = self.mem;
        let ibp = word_of(self.setting, mem, self.answer.port, IBP);
        write!(f, "input ")?;
        if ibp == self.before.ibp {
            return self.write_unstored(f);
        }
        let stored = Character(fetch(self.mem, ibp));
        write!(f, "'{stored}' stored at byte {ibp}")?;
        if self.answer.sent.is_some() {
            write!(f, ", echoed")?;
        }
        Ok(())
    }

    // What an output turn that sent nothing did.
    fn write_unsent<W: fmt::Write>(&self, f: &mut fmt::Formatter<W>) -> fmt::Result {
        let ocw = self.before.ocw;
        if is_control(ocw) {
            let bits = get(ocw, CHARACTER);
            return write!(f, "port control, control bits octal {bits:03o}");
        }
        write!(f, "nothing to send")
    }

    // What an output turn did.
    fn write_output<W: fmt::Write>(&self, f: &mut fmt::Formatter<W>) -> fmt::Result {
        match self.answer.sent {
            Some(b) => write!(f, "output '{}' sent", Character(b)),
            None => self.write_unsent(f),
        }
    }

    // What the turn served.
    fn write_turn<W: fmt::Write>(&self, f: &mut fmt::Formatter<W>) -> fmt::Result {
        match self.answer.turn {
            Turn::Nothing => write!(f, "nothing"),
            Turn::Idle => write!(f, "still sending"),
            Turn::Served {
                service: Service::Input,
            } => self.write_input(f),
            Turn::Served {
                service: Service::Output,
            } => self.write_output(f),
        }
    }
}

// The port, what was served there, and the interrupt, if any was raised.
impl fmt::Display for Inspected<'_> {
    fn fmt<W: fmt::Write>(&self, f: &mut fmt::Formatter<W>) -> fmt::Result {
        write!(f, "  port {}: ", self.answer.port)?;
        self.write_turn(f)?;
        if self.answer.raised {
            let word = dia(self.setting.kind, self.irq);
            write!(f, ", interrupt, status word {word}")?;
        }
        Ok(())
    }
}
