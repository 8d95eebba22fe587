// The line that a caretaker types: three decimal numbers with spaces between them, and an m after them for a Mighty Mux, read byte by byte.
#![tactic(auto, unfolding(ground::specs::Choose::pick, driver::specs::Text::is_digit, crate::specs::Typed::begun, crate::specs::Typed::extended, crate::specs::Typed::digit_typed, crate::specs::Typed::typed, crate::specs::Typed::kind_of))]

ghost use Rattle.std.specs.Prelude.{◌≡◌};
ghost use Rattle.settings.specs.Typed.{blank, begun, extended, digit_typed, is_space, spaced, lettered, typed, started, whole, setting_of};

use driver::read::appended;
use interrupt::Kind;
use unit::mux::Setting;
use words::special::set_1974;

// What is read of a line so far: its last three numbers, how many it has up to three, whether the last may go on, whether the m is there, and whether anything on it is wrong.
// The three bools stay: each is a fact of the text that has no value beside it, and line_read and line_mighty speak of a line that has all three.
#[derive(Clone, Copy)]
pub struct Line {
    pub block: u32,
    pub ports: u32,
    pub base: u32,
    pub count: u32,
    pub inside: bool,
    pub mighty: bool,
    pub wrong: bool,
}

// A line of which nothing is read yet.
pub fn blank() -> Line
    ensures { result ≡ blank }
{
    Line {
        block: 0,
        ports: 0,
        base: 0,
        count: 0,
        inside: false,
        mighty: false,
        wrong: false,
    }
}

// A number begins with a digit, and those before it move up; a fourth is wrong.
fn begun(t: Line, b: u8) -> Line
    ensures { result ≡ begun t b }
{
    let fourth = t.count >= 3;
    Line {
        block: t.ports,
        ports: t.base,
        base: u32::from(b % 16),
        count: if fourth { t.count } else { t.count + 1 },
        inside: true,
        wrong: fourth | t.wrong,
        ..t
    }
}

// The number has one more digit; from 2^32 on it is wrong.
fn extended(t: Line, b: u8) -> Line
    ensures { result ≡ extended t b }
{
    let number = appended(t.base, b);
    Line {
        base: (number % 4294967296) as u32,
        wrong: t.wrong | (4294967295 < number),
        ..t
    }
}

// A digit, of a number that goes on or of a new one.
fn digit_typed(t: Line, b: u8) -> Line
    ensures { result ≡ digit_typed t b }
{
    if t.inside {
        extended(t, b)
    } else {
        begun(t, b)
    }
}

// Whether the byte may stand between two numbers: a space, a tab, or the carriage return that some systems put at the end of a line.
fn is_space(b: u8) -> bool
    ensures { result ≡ is_space b }
{
    matches!(b, b' ' | b'\t' | b'\r')
}

// A byte that is no digit ends the number; but for a space it is wrong.
fn spaced(t: Line, b: u8) -> Line
    ensures { result ≡ spaced t b }
{
    Line {
        inside: false,
        wrong: t.wrong | !is_space(b),
        ..t
    }
}

// The letter m, which ends the third number; anywhere else, or once more, it is wrong.
fn lettered(t: Line) -> Line
    ensures { result ≡ lettered t }
{
    Line {
        inside: false,
        mighty: true,
        wrong: t.wrong | t.mighty | (t.count != 3),
        ..t
    }
}

// The line with one more byte.
pub fn typed(t: Line, b: u8) -> Line
    ensures { result ≡ typed t b }
{
    match b {
        b'0'..=b'9' => digit_typed(t, b),
        b'm' => lettered(t),
        _ => spaced(t, b),
    }
}

// Whether anything but spaces is on the line.
pub fn started(t: Line) -> bool
    ensures { result ≡ started t }
{
    t.wrong | (t.count != 0)
}

// Whether the line is three numbers, with or without the m, and nothing else.
pub fn whole(t: Line) -> bool
    ensures { result ≡ whole t }
{
    !t.wrong & (t.count == 3)
}

// The setting that the line asks for; its set is the 1974 set, for no refusal looks at a set.
pub fn setting_of(t: Line) -> Setting
    ensures { result ≡ setting_of t }
{
    Setting {
        kind: if t.mighty {
            Kind::MightyMux
        } else {
            Kind::Eds8
        },
        block: t.block,
        ports: t.ports,
        base: t.base,
        special: set_1974(),
    }
}
