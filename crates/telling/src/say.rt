// Characters and bytes of the memory, as a terminal shows them.
use std::fmt;
use words::byte::{Memory, fetch};

// A character, without the bit that 7-bit ASCII mode sets; one that a terminal would act on is told in octal.
#[derive(Clone, Copy)]
pub struct Character(pub u8);

impl fmt::Display for Character {
    fn fmt<W: fmt::Write>(&self, f: &mut fmt::Formatter<W>) -> fmt::Result {
        let c = self.0 % 128;
        if (31 < c) & (c < 127) {
            write!(f, "{}", char::from(c))
        } else {
            write!(f, "\\{c:03o}")
        }
    }
}

// The bytes after one byte pointer, up to another.
#[derive(Clone, Copy)]
pub struct Bytes<'a> {
    pub mem: &'a Memory,
    pub before: u16,
    pub last: u16,
}

impl fmt::Display for Bytes<'_> {
    fn fmt<W: fmt::Write>(&self, f: &mut fmt::Formatter<W>) -> fmt::Result {
        for at in self.before..self.last {
            write!(f, "{}", Character(fetch(self.mem, at + 1)))?;
        }
        Ok(())
    }
}
