// The line of a session's text, read byte by byte; and how a program reads all that is typed to it.
#![tactic(auto, unfolding(ground::specs::Choose::pick, crate::specs::Text::ended, crate::specs::Text::is_digit, crate::specs::Text::typed))]

ghost use Rattle.std.specs.Prelude.{◌≡◌, ◌≤◌, ℕ, length, take};
ghost use Rattle.std.specs.Io.KnownBytes.{Consumes};
ghost use mathlib.Core.List.{foldl};
ghost use Rattle.driver.specs.Text.{blank, appended, extended, ended, typed, HeardFrom};

use std::io::Read;

// The numbers of the line that have ended, how many they are, and the number that is being read.
// It stays an array with its length: specs/Text names both, a Vec can run out of memory where `typed` cannot fail, and an ArrayVec is not Copy.
#[derive(Clone, Copy)]
pub struct Line {
    pub n: [u32; 5],
    pub count: u32,
    pub number: u32,
}

// A line of which nothing is read yet.
pub fn blank() -> Line
    ensures { result ≡ blank }
{
    Line {
        n: [0; 5],
        count: 0,
        number: 0,
    }
}

// A number with one more digit.
pub fn appended(x: u32, b: u8) -> u64
    ensures { result ≡ appended x b }
{
    u64::from(x) * 10 + u64::from(b % 16)
}

// The line with one more digit of its number; a number is below 2^32.
fn extended(l: Line, b: u8) -> Line
    ensures { result ≡ extended l b }
{
    Line {
        number: (appended(l.number, b) % 4294967296) as u32,
        ..l
    }
}

// The line with its number ended; a sixth number is dropped.
fn ended(l: Line) -> Line
    ensures { result ≡ ended l }
{
    let mut r = Line { number: 0, ..l };
    if l.count < 5 {
        r.n[l.count as usize] = l.number;
        r.count += 1;
    }
    r
}

// The line with one more byte: a digit extends the number, a space or a newline ends it.
pub fn typed(l: Line, b: u8) -> Line
    ensures { result ≡ typed l b }
{
    if b.is_ascii_digit() {
        extended(l, b)
    } else {
        ended(l)
    }
}

// Reads once from the reader into buf: how many bytes came, 0 at the end of the text and where reading failed.
pub fn received<R: Read>(reader: &mut R, buf: &mut [u8]) -> usize
    ensures within { result ≤ length buf.new }
    ensures bytes { Consumes (R.remaining reader.old) (R.remaining reader.new) (take result buf.new) }
{
    reader.read(buf).unwrap_or(0)
}

// What takes text byte by byte, and may print what it answers.
pub trait Takes {
    ghost takes: { Self → ℕ → Self };

    fn take_byte<P: Print>(&mut self, rt: &P, b: u8)
        ensures { self.new ≡ takes self.old b };
}

// A part of the text, byte by byte.
fn take<P: Print, T: Takes>(rt: &P, t: &mut T, text: &[u8])
    ensures { t.new ≡ foldl T.takes t.old text.now }
{
    for b in text {
        t.take_byte(rt, *b);
    }
}

// All that a reader has, as it comes. The turns have a last one, which no run reaches, since nothing says that the text ends.
pub fn read_all<R: Read, P: Print, T: Takes>(reader: &mut R, rt: &P, t: &mut T)
    ensures { HeardFrom (R.remaining reader.old) (R.remaining reader.new) T.takes t.old t.new }
{
    let mut buf = io::large_buffer();
    for _ in 0..u64::MAX {
        let n = received(reader, &mut buf);
        if n == 0 {
            break;
        }
        take(rt, t, &buf[..n]);
    }
}
