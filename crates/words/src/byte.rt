// A byte of the host's memory by a byte pointer: pointer div 2 is the word, even is the left half, odd the right.
#![tactic(auto, using(crate::specs::laws::Byte::half_whole, crate::specs::laws::Byte::half_span), unfolding(ground::specs::Choose::pick, crate::specs::Byte::half_at, crate::specs::Byte::byte_at, crate::specs::Byte::store_byte))]

ghost use Rattle.std.specs.Prelude.{◌≡◌};
ghost use Rattle.words.specs.Byte.{half_at, byte_at, store_byte};

use crate::codes::{LEFT, RIGHT};
use crate::field::{Field, get, put};

// The host's memory: how many words it has, and the array that they are.
pub const WORDS: usize = 32768;

pub type Memory = [u16; WORDS];

// The half of its word that a byte pointer names.
pub fn half_at(p: u16) -> Field
    ensures { result ≡ half_at p }
{
    if p % 2 == 0 { LEFT } else { RIGHT }
}

// The byte at the pointer.
pub fn fetch(mem: &Memory, p: u16) -> u8
    ensures { result ≡ byte_at mem.now p }
{
    let at = (p / 2) as usize;
    get(mem[at], half_at(p)) as u8
}

// The byte put at the pointer: the other half is kept, and so is every other word.
pub fn store(mem: &mut Memory, p: u16, b: u8)
    ensures { mem.new ≡ store_byte mem.old p b }
{
    let at = (p / 2) as usize;
    mem[at] = put(mem[at], half_at(p), b as u16);
}
