// The modes of input and output, which stand in fields of two bits (001, sections 4.1 and 4.2), each by its name; the numbers are those of the one table, codes.
ghost use Rattle.std.specs.Prelude.{◌≡◌};
ghost use Rattle.words.specs.Field.{get};
ghost use Rattle.words.specs.Codes.{INMO, OUTMO};
ghost use Rattle.words.specs.Modes.{input_number, output_number};

use crate::codes;
use crate::field::get;

// What becomes of a character: bits 1 and 2 of ICW.
#[derive(Clone, Copy, PartialEq, Eq, Debug)]
pub enum InputMode {
    Single,
    NoInput,
    Auto,
    Echo,
}

// What an empty transmitter gets: bits 1 and 2 of OCW.
#[derive(Clone, Copy, PartialEq, Eq, Debug)]
pub enum OutputMode {
    NoOutput,
    Auto,
    Control,
    Single,
}

// The mode that ICW asks for. It and OCW's are two functions, for the two words have other modes.
pub fn input_mode(icw: u16) -> InputMode
    ensures { input_number result ≡ get INMO icw }
{
    match get(icw, codes::INMO) {
        codes::IN_SINGLE => InputMode::Single,
        codes::IN_NONE => InputMode::NoInput,
        codes::IN_ECHO => InputMode::Echo,
        _ => InputMode::Auto,
    }
}

// The mode that OCW asks for.
pub fn output_mode(ocw: u16) -> OutputMode
    ensures { output_number result ≡ get OUTMO ocw }
{
    match get(ocw, codes::OUTMO) {
        codes::OUT_NONE => OutputMode::NoOutput,
        codes::OUT_AUTO => OutputMode::Auto,
        codes::OUT_CONTROL => OutputMode::Control,
        _ => OutputMode::Single,
    }
}
