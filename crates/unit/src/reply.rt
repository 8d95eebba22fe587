// What calls answer that are not refused: one struct for all of them.
ghost use Rattle.std.specs.Prelude.{◌≡◌};
ghost use Rattle.unit.specs.Reply.{turn_number, nothing, accepted, answered, answer_of, replied_of};

use crate::mux::Mux;
use interrupt::Service;

// What an inspection served. Nothing: refused or stopped. Idle: a running turn that serves nothing, and still names its port.
// Nothing is one of four answers, each with its number (turn_numbers), and so no None of an Option.
#[derive(Clone, Copy)]
pub enum Turn {
    Nothing,
    Idle,
    Served { service: Service },
}

// What an inspection answers: what was served, the port, the byte handed to the transmitter if any, and whether an interrupt was raised.
#[derive(Clone, Copy)]
pub struct Answer {
    pub turn: Turn,
    pub port: u32,
    pub sent: Option<u8>,
    pub raised: bool,
}

// What a call answers: the word of DIA and DIAS; an inspection's answer; the inspections that a sweep made and the list places that it used. What a call has not is 0 or "nothing".
#[derive(Clone, Copy)]
pub struct Reply {
    pub value: u16,
    pub answer: Answer,
    pub made: u32,
    pub used: u32,
}

// The reply and the record after the call.
#[derive(Clone, Copy)]
pub struct Replied {
    pub reply: Reply,
    pub mux: Mux,
}

// This paper's number for what was served.
impl From<Turn> for u8 {
    ghost from_gives = { λ t n. n ≡ turn_number t };

    fn from(t: Turn) -> u8 {
        match t {
            Turn::Nothing => 0,
            Turn::Idle => 1,
            Turn::Served { service } => match service {
                Service::Input => 2,
                Service::Output => 3,
            },
        }
    }
}

// The answer "nothing".
pub fn nothing() -> Answer
    ensures { answer_of result ≡ nothing }
{
    Answer {
        turn: Turn::Nothing,
        port: 0,
        sent: None,
        raised: false,
    }
}

// A call on the record alone that is not refused: the further result and the record.
pub fn accepted(value: u16, u: Mux) -> Replied
    ensures { replied_of u (Ok result) ≡ accepted value u }
{
    Replied {
        reply: Reply {
            value,
            answer: nothing(),
            made: 0,
            used: 0,
        },
        mux: u,
    }
}

// An inspection that is not refused: its answer and the record.
pub fn answered(answer: Answer, u: Mux) -> Replied
    ensures { replied_of u (Ok result) ≡ answered (answer_of answer) u }
{
    Replied {
        reply: Reply {
            value: 0,
            answer,
            made: 0,
            used: 0,
        },
        mux: u,
    }
}
