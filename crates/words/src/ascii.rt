// What 7-bit ASCII mode does to a character, to each place by itself (specs/Codes.antt, bit 3 of ICW).
#![tactic(auto, unfolding(ground::specs::Choose::pick, crate::specs::Codes::stored_byte, crate::specs::Codes::word_byte, crate::specs::Codes::echoed_byte))]

ghost use Rattle.std.specs.Prelude.{◌≡◌, ◌+◌, ◌%◌};
ghost use Rattle.ground.specs.Choose.{pick};
ghost use Rattle.words.specs.Codes.{stored_byte, word_byte, echoed_byte};

// The character, in 7-bit ASCII mode with its top bit 1.
fn marked(seven: bool, c: u8) -> u8
    ensures { result ≡ pick seven (128 + c % 128) c }
{
    if seven { 128 + c % 128 } else { c }
}

// The byte stored in the buffer. It and ICW's are two functions, for the manual rules on each place by itself, and each has a definition of its own.
pub fn stored_byte(seven: bool, c: u8) -> u8
    ensures { result ≡ stored_byte seven c }
{
    marked(seven, c)
}

// The byte in ICW.
pub fn word_byte(seven: bool, c: u8) -> u8
    ensures { result ≡ word_byte seven c }
{
    marked(seven, c)
}

// The echoed byte.
pub fn echoed_byte(seven: bool, c: u8) -> u8
    ensures { result ≡ echoed_byte seven c }
{
    c
}
