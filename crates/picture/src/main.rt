// For the hobbyist: type data bits, parity, stop cells and a character on a line, and see the character's frame as a picture of the line.
#![tactic(auto)]

mod asked;
mod draw;
mod say;

ghost use Rattle.driver.specs.Text.{HeardFrom};
ghost use Rattle.picture.specs.Typing.{nothing, taken, typing_of, takes};

use crate::asked::asked_for;
use crate::say::ASK;
use driver::read::{Line, Takes, blank, read_all, typed};
use std::io::Read;

// What is typed of a line: its numbers, where there is anything.
#[derive(Clone, Copy)]
struct Typing {
    line: Option<Line>,
}

// What is typed; at the end of a line its frame is drawn, and the next begins.
impl Takes for Typing {
    ghost takes = { takes };

    #[tactic(auto, unfolding(ground::specs::Choose::pick, crate::specs::Typing::takes))]
    fn take_byte<P: Print>(&mut self, rt: &P, b: u8) {
        let line = typed(self.line.unwrap_or(blank()), b);
        if b == b'\n' {
            print_picture(rt, line);
            self.line = None;
        } else {
            self.line = Some(line);
        }
    }
}

// The picture that a line asks for, printed, or what to type. Where printing fails the program goes on: there is no one to tell.
fn print_picture(rt: &impl Print, line: Line) {
    let _ = match asked_for(line) {
        Some(asked) => rt.println(asked),
        None => rt.write_all(ASK.as_bytes()),
    };
}

// All that is typed, from a line on of which nothing is typed; the line at its end.
#[tactic(auto, using(crate::specs::laws::Typing::heard_typed))]
fn all_typed<R: Read, P: Print>(reader: &mut R, rt: &P) -> Typing
    ensures { HeardFrom (R.remaining reader.old) (R.remaining reader.new) taken nothing (typing_of result) }
{
    let mut typing = Typing { line: None };
    read_all(reader, rt, &mut typing);
    typing
}

// A last line that has no end is answered too.
fn main(rt: HostRuntime) {
    let typing = all_typed(&mut rt.reader(), &rt);
    if let Some(line) = typing.line {
        print_picture(&rt, typed(line, b'\n'));
    }
}
