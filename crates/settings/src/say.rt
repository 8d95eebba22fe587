// What a caretaker is answered: setup's word on the setting, the sentence for its number, and what to type instead.
ghost use Rattle.std.specs.Prelude.{◌≡◌};
ghost use Rattle.settings.specs.Answer.{Says, answer_to};
ghost use Rattle.settings.specs.Sentence.{sentence};

use crate::advice::advised;
use crate::typed::{Line, setting_of, whole};
use interrupt::Kind;
use std::fmt;
use unit::mux::Setting;
use unit::refusal::{Refusal, setup_refusal};

// The answer to a line: that it was not three numbers, with or without the m; or what setup says of them, and what to type instead of what it refuses.
#[derive(Clone, Copy)]
pub enum Answer {
    NotWhole,
    Accepted,
    Refused { refusal: Refusal, instead: Setting },
}

// What a line that is not three numbers is answered, with its line end, as it is written whole.
pub const PLEASE: &str =
    "please type three decimal numbers below 4294967296: block size, ports, base; then m for a Mighty Mux\n";

// The answer to a line.
pub fn answered(t: Line) -> Answer
    ensures { Says result (answer_to t) }
{
    if !whole(t) {
        return Answer::NotWhole;
    }
    let setting = setting_of(t);
    match setup_refusal(setting) {
        Ok(()) => Answer::Accepted,
        Err(refusal) => Answer::Refused {
            refusal,
            instead: advised(setting),
        },
    }
}

// The sentence for a refusal, as docs/CARETAKER.md has it.
fn sentence(refusal: Refusal) -> &'static str
    ensures { result.now ≡ sentence refusal }
{
    match refusal {
        Refusal::BadBlock => "the block size is not 8, 16 or 32",
        Refusal::BadPorts => "the number of ports is 0, or above 128",
        Refusal::Misaligned => "the base is not a multiple of 8 times the block size",
        Refusal::TooHigh => "the base is above 32767, the last word of the memory",
        Refusal::BadLocation => {
            "the base is not a multiple of 256, which is octal 400, as a Mighty Mux needs"
        }
        Refusal::Crosses => "the control area crosses a multiple of 128 times the block size",
        _ => "no sentence is known for this number",
    }
}

// A setting, as a caretaker types it.
#[derive(Clone, Copy)]
struct AsTyped(Setting);

// Three numbers, and an m of a Mighty Mux.
impl fmt::Display for AsTyped {
    fn fmt<W: fmt::Write>(&self, f: &mut fmt::Formatter<W>) -> fmt::Result {
        let AsTyped(s) = *self;
        let mark = match s.kind {
            Kind::Eds8 => "",
            Kind::MightyMux => " m",
        };
        write!(f, "{} {} {}{}", s.block, s.ports, s.base, mark)
    }
}

// The answer in words; of a refusal its number, its sentence, and what to type instead.
impl fmt::Display for Answer {
    fn fmt<W: fmt::Write>(&self, f: &mut fmt::Formatter<W>) -> fmt::Result {
        match *self {
            Answer::NotWhole => write!(f, "{}", PLEASE.trim_end()),
            Answer::Accepted => write!(f, "accepted"),
            Answer::Refused { refusal, instead } => write!(
                f,
                "refused, {}: {}\ntype instead: {}",
                u8::from(refusal),
                sentence(refusal),
                AsTyped(instead)
            ),
        }
    }
}
