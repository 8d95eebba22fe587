// For caretakers: type a block size, a number of ports and a base on a line, and an m for a Mighty Mux, and see what setup says of them and what to type instead.
#![tactic(auto)]

mod advice;
mod say;
mod typed;

ghost use Rattle.driver.specs.Text.{HeardFrom};
ghost use Rattle.settings.specs.Typed.{blank};
ghost use Rattle.settings.specs.Answer.{taken};

use crate::say::{Answer, PLEASE, answered};
use crate::typed::{Line, blank, started, typed};
use driver::read::{Takes, read_all};
use std::io::Read;

// What is typed; at the end of a line it is answered, and the next begins.
impl Takes for Line {
    ghost takes = { taken };

    #[tactic(auto, unfolding(ground::specs::Choose::pick, crate::specs::Answer::taken))]
    fn take_byte<P: Print>(&mut self, rt: &P, b: u8) {
        if b == b'\n' {
            print_answer(rt, *self);
            *self = blank();
        } else {
            *self = typed(*self, b);
        }
    }
}

// The answer to a line, printed. Where printing fails the program goes on: there is no one to tell.
fn print_answer(rt: &impl Print, t: Line) {
    let _ = match answered(t) {
        // A Display goes byte by byte, and there is but one such line.
        Answer::NotWhole => rt.write_all(PLEASE.as_bytes()),
        answer => rt.println(answer),
    };
}

// All that is typed, from a blank line on; the line at its end.
fn all_typed<R: Read, P: Print>(reader: &mut R, rt: &P) -> Line
    ensures { HeardFrom (R.remaining reader.old) (R.remaining reader.new) taken blank result }
{
    let mut line = blank();
    read_all(reader, rt, &mut line);
    line
}

// A last line that has no end is answered too.
fn main(rt: HostRuntime) {
    let line = all_typed(&mut rt.reader(), &rt);
    if started(line) {
        print_answer(&rt, line);
    }
}
