// The picture, printed: a line that says what it is, the marks, the spaces, and the letters below them.
ghost use Rattle.std.specs.Prelude.{◌≡◌};
ghost use Rattle.picture.specs.Words.{parity_words, stop_words};

use crate::asked::Asked;
use crate::draw::{Row, drawn};
use framing::form::{Form, Parity, Stops};
use std::fmt;

// What a line that asks for no frame is answered, with its line end: it is written whole, where a Display goes byte by byte.
pub const ASK: &str =
    "please type data bits (5 to 8), parity (0 none, 1 odd, 2 even), stop cells (2, 3 or 4) and a character (0 to 255)\n";

// The parity, in words.
fn parity_words(parity: Parity) -> &'static str
    ensures { result.now ≡ parity_words parity }
{
    match parity {
        Parity::Inhibited => "no parity",
        Parity::Odd => "odd parity",
        Parity::Even => "even parity",
    }
}

// The stop, in words.
fn stop_words(stops: Stops) -> &'static str
    ensures { result.now ≡ stop_words stops }
{
    match stops {
        Stops::One => "1 stop",
        Stops::OneAndHalf => "1.5 stops",
        Stops::Two => "2 stops",
    }
}

// A row of a frame's picture.
#[derive(Clone, Copy)]
struct Drawn {
    form: Form,
    c: u8,
    which: Row,
}

// As much of the row as the frame has cells.
impl fmt::Display for Drawn {
    fn fmt<W: fmt::Write>(&self, f: &mut fmt::Formatter<W>) -> fmt::Result {
        let cells = drawn(self.form, self.c, self.which);
        let n = self.form.frame_cells() as usize;
        for b in &cells[..n] {
            f.write_char(char::from(*b))?;
        }
        Ok(())
    }
}

// The picture of a frame.
impl fmt::Display for Asked {
    fn fmt<W: fmt::Write>(&self, f: &mut fmt::Formatter<W>) -> fmt::Result {
        let Asked { form, c } = *self;
        let parity = parity_words(form.parity);
        let stop = stop_words(form.stops);
        let row = |which| Drawn { form, c, which };
        write!(
            f,
            "{} in {} bits, {}, {}\n",
            c,
            form.data_bits(),
            parity,
            stop
        )?;
        write!(f, "mark  {}\n", row(Row::Marks))?;
        write!(f, "space {}\n", row(Row::Spaces))?;
        write!(f, "      {}", row(Row::Letters))
    }
}
