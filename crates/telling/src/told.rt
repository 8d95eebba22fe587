// What a call asked and what it answered.
use crate::asked::Asked;
use crate::say::Character;
use calls::call::{Act, Call, What};
use processor::orders::Order;
use std::fmt;
use unit::refusal::Refusal;
use unit::reply::{Replied, Reply};

// The word that the processor read, and the interrupt flag after it.
#[derive(Clone, Copy)]
pub struct Read {
    pub value: u16,
    pub flag: bool,
}

impl fmt::Display for Read {
    fn fmt<W: fmt::Write>(&self, f: &mut fmt::Formatter<W>) -> fmt::Result {
        let left = if self.flag { "stays on" } else { "is off" };
        write!(f, "reads {}, the flag {left}", self.value)
    }
}

// A call with what it answered and left, or why it was refused, and the list that it was lent.
#[derive(Clone, Copy)]
pub struct Told<'a> {
    pub call: Call,
    pub answered: Result<Replied, Refusal>,
    pub list: &'a [u16],
}

// What one thing asked of the unit answered: DIA and DIAS a word, the others nothing that is told here.
fn write_done<W: fmt::Write>(f: &mut fmt::Formatter<W>, act: Act, r: &Replied) -> fmt::Result {
    match act {
        Act::Processor {
            order: Order::Dia | Order::Dias,
        } => {
            let value = r.reply.value;
            let flag = r.mux.irq.flag;
            write!(f, " {}", Read { value, flag })
        }
        _ => Ok(()),
    }
}

// A sweep: how many inspections it made, and the bytes that it handed over, in the places of its list that it used.
fn write_swept<W: fmt::Write>(f: &mut fmt::Formatter<W>, r: &Reply, list: &[u16]) -> fmt::Result {
    let made = r.made;
    let used = r.used;
    write!(f, ": made {made}, handed over {used}")?;
    for w in list.iter().take(used as usize) {
        let sent = Character((w % 256) as u8);
        write!(f, ", port {} '{sent}'", w / 256)?;
    }
    Ok(())
}

impl Told<'_> {
    // What the call answered.
    fn write_answer<W: fmt::Write>(&self, f: &mut fmt::Formatter<W>, r: &Replied) -> fmt::Result {
        match self.call.what {
            What::Setup => write!(f, ": accepted"),
            What::Do { act } => write_done(f, act, r),
            What::Sweep { .. } => write_swept(f, &r.reply, self.list),
        }
    }
}

impl fmt::Display for Told<'_> {
    fn fmt<W: fmt::Write>(&self, f: &mut fmt::Formatter<W>) -> fmt::Result {
        write!(f, "{}", Asked(self.call))?;
        match &self.answered {
            Ok(r) => self.write_answer(f, r),
            Err(refusal) => write!(f, ": refused with {}", u8::from(*refusal)),
        }
    }
}
