// The error code of a character, and the two ways in which ICW is written.
#![tactic(auto, unfolding(ground::specs::Choose::pick, crate::specs::Input::error_code, crate::specs::Input::ascii, crate::specs::Input::replaced_icw, crate::specs::Input::done_icw))]

ghost use Rattle.std.specs.Prelude.{◌≡◌};
ghost use Rattle.ground.specs.Choose.{bit};
ghost use Rattle.input.specs.Input.{error_code, ascii, replaced_icw, done_icw};
ghost use Rattle.input.specs.Plan.{error_number};

use unit::mux::Character;
use words::ascii::word_byte;
use words::codes::{
    ASCII, CHARACTER, FLAG_BREAK, FLAG_NONE, FLAG_OVERLOAD, FLAG_PARITY, FLAGS, INDONE, NOT_ECHOED,
    PARITY_INHIBIT, SERVICE_OVERLOAD,
};
use words::field::{bit, get, is_set, put};

// What bits 4 and 5 of ICW say of a character (001, section 4.1).
#[derive(Clone, Copy, PartialEq, Eq, Debug)]
pub enum ErrorCode {
    NoError = FLAG_NONE as isize,
    Parity = FLAG_PARITY as isize,
    Overload = FLAG_OVERLOAD as isize,
    Break = FLAG_BREAK as isize,
}

// One reading of 7-bit ASCII mode, for the stored byte, the echo and ICW alike.
pub fn is_ascii(icw: u16) -> bool
    ensures { result ≡ ascii icw }
{
    is_set(icw, ASCII)
}

// One code for three marks: overload, else break, else parity (only if control bit 8 is 0), else none.
pub fn error_code(control: u8, ch: Character) -> ErrorCode
    ensures { error_number result ≡ error_code control ch }
{
    if ch.overload {
        ErrorCode::Overload
    } else if ch.brk {
        ErrorCode::Break
    } else if ch.parity && get(control as u16, PARITY_INHIBIT) == 0 {
        ErrorCode::Parity
    } else {
        ErrorCode::NoError
    }
}

// INDONE was set: the host has not taken the character in ICW, so this one and its code replace it, and bit 7 tells of the loss.
pub fn replaced_icw(icw: u16, code: ErrorCode, c: u8) -> u16
    ensures { result ≡ replaced_icw icw (error_number code) c }
{
    let flagged = put(icw, FLAGS, code as u16);
    let overload = put(flagged, SERVICE_OVERLOAD, 1);
    put(overload, CHARACTER, word_byte(is_ascii(icw), c) as u16)
}

// The character is done: made from the word as read, so that the modes that the host put there stay.
pub fn done_icw(icw: u16, code: ErrorCode, mark: bool, c: u8) -> u16
    ensures { result ≡ done_icw icw (error_number code) (bit mark) c }
{
    let done = put(icw, INDONE, 1);
    let flagged = put(done, FLAGS, code as u16);
    let marked = put(flagged, NOT_ECHOED, bit(mark));
    put(marked, CHARACTER, word_byte(is_ascii(icw), c) as u16)
}
