// A school day played again, in plain words: reads a recording on standard input, in parts, plays each event from a record of zeros and a memory of zeros, and prints what was asked and what came of it.
// Whether a line could be printed changes nothing of a day, so what printing answers is let go.
#![tactic(auto)]

mod names;
mod say;

ghost use mathlib.Core.List.{foldl};
ghost use Rattle.std.specs.Prelude.{◌≡◌};
ghost use Rattle.driver.specs.Text.{HeardFrom};
ghost use Rattle.unit.specs.Reply.{world, looked, replied_of};
ghost use Rattle.recording.specs.Pass.{kept};
ghost use Rattle.day.specs.Day.{dawn, told, happened, taken};

use crate::names::{Changes, begins, changed, viewed};
use crate::say::{Ended, Played};
use recording::event::Event;
use replay::play::play;
use std::io::{self, IsTerminal, Read, Stderr};
use std::marker::Model;
use stream::Stream;
use telling::look::seen;
use unit::mux::Mux;
use unit::refusal::Refusal;
use unit::reply::Replied;
use unit::setup::no_mux;
use words::byte::Memory;

// The day so far: the recording as far as it is read, the unit on its memory, and where the lines began. Clauses see what is kept of it from byte to byte, with the memory beside.
#[derive(Drop)]
struct Day {
    stream: Stream,
    unit: Mux,
    memory: Memory,
    begin: [u16; 128],
}

impl Model for Day {
    ghost use Rattle.recording.specs.Pass.{kept};
    ghost use Rattle.day.specs.Day.{KeptDay, day_of};

    ghost Value = { KeptDay };

    ghost view = { λ d. kept (day_of d.stream d.unit d.begin) d.memory };
}

// One event, played with a list of 4096 zeros, and said.
#[tactic(auto, unfolding(crate::specs::Day::told))]
fn said(rt: &impl Print, u: Mux, mem: &mut Memory, e: Event) -> Result<Replied, Refusal>
    ensures { looked (replied_of u result) mem.new ≡ told (world u mem.old) e }
{
    let before = seen(u.setting, mem, u.pos);
    let mut list = [0u16; 4096];
    let answered = play(u, mem, &mut list, e);
    let said = Played {
        event: e,
        answered,
        mem,
        list: &list,
        before,
    };
    let _ = println!(rt; "{said}");
    answered
}

impl Day {
    // A day of which nothing is read yet.
    fn dawn(memory: Memory) -> Day
        ensures { result ≡ kept dawn memory }
    {
        Day {
            stream: stream::begin(),
            unit: no_mux(),
            memory,
            begin: [0; 128],
        }
    }

    // One event, and what it did to the lines.
    #[tactic(auto, unfolding(crate::specs::Day::happened))]
    fn happen(&mut self, rt: &impl Print, e: Event)
        ensures { self.new ≡ happened self.old e }
    {
        let was = viewed(self.unit.setting, &self.memory);
        let answered = said(rt, self.unit, &mut self.memory, e);
        self.unit = answered.map_or(self.unit, |r| r.mux);
        let is = viewed(self.unit.setting, &self.memory);
        let changes = changed(self.begin, was, is);
        let told = Changes {
            event: e,
            setting: self.unit.setting,
            mem: &self.memory,
            changes,
        };
        let _ = print!(rt; "{told}");
        self.begin = begins(e, &answered, changes);
    }

    // One byte of the recording; where it makes a field whole, its event happens.
    #[tactic(auto, unfolding(crate::specs::Day::taken, ground::specs::Choose::pick))]
    fn take_byte(&mut self, rt: &impl Print, b: u8)
        ensures { self.new ≡ taken self.old b }
    {
        self.stream = stream::take(self.stream, b);
        if stream::ready(self.stream) {
            self.happen(rt, stream::event(self.stream));
        }
    }

    // A part of the recording, byte by byte.
    fn take(&mut self, rt: &impl Print, text: &[u8])
        ensures { self.new ≡ foldl taken self.old text.now }
    {
        for b in text {
            self.take_byte(rt, *b);
        }
    }

    // How far the reading is, where whoever waits sees it.
    fn say_progress(&self, errors: Stderr) {
        if errors.is_terminal() {
            let _ = println!(errors;
                "{} bytes, {} events so far",
                self.stream.at, self.stream.count
            );
        }
    }

    // All of the recording, as it comes, or the error of a read that failed. The turns have a last one, which no run reaches, since nothing says that the input ends.
    // Driver's reader serves no program that says how far it is, or that a read failed.
    fn read_all<R: Read>(
        &mut self,
        reader: &mut R,
        rt: &impl Print,
        errors: Stderr,
    ) -> io::Result<()>
        ensures { HeardFrom (R.remaining reader.old) (R.remaining reader.new) taken self.old self.new }
    {
        let mut buf = [0u8; 65536];
        for _ in 0..u64::MAX {
            let n = reader.read(&mut buf)?;
            if n == 0 {
                break;
            }
            self.take(rt, &buf[..n]);
            self.say_progress(errors);
        }
        Ok(())
    }

    // A whole day, from its dawn on, on the memory that there is.
    fn play_all<R: Read>(
        &mut self,
        reader: &mut R,
        rt: &impl Print,
        errors: Stderr,
    ) -> io::Result<()>
        ensures { HeardFrom (R.remaining reader.old) (R.remaining reader.new) taken (kept dawn self.old.lent) self.new }
    {
        self.stream = stream::begin();
        self.unit = no_mux();
        self.begin = [0; 128];
        self.read_all(reader, rt, errors)
    }
}

fn main(rt: HostRuntime) {
    let mut day = Day::dawn([0; 32768]);
    let _ = match day.play_all(&mut rt.reader(), &rt, rt.stderr()) {
        Ok(()) => println!(rt; "{}", Ended(stream::end(day.stream))),
        Err(_) => println!(rt; "reading failed"),
    };
}
