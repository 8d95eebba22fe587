// Words of control blocks, of any setting and any memory.
#![tactic(auto, unfolding(unit::specs::Record::block_at))]

ghost use Rattle.std.specs.Prelude.{◌≡◌, ◌<◌, ◌+◌, ◌*◌};
ghost use Rattle.telling.specs.Look.{word_of, seen};

use unit::mux::Setting;
use words::codes::{IBP, ICW, OCW};

// Where word k of port p's control block lies; no sum of these overflows.
fn place_of(base: u32, block: u32, p: u32, k: usize) -> usize
    requires { k < 8 }
    ensures { result ≡ base + p * block + k }
{
    base as usize + p as usize * block as usize + k
}

// A word of port p's control block, 0 past the memory's end.
pub fn word_of(s: Setting, mem: &[u16], p: u32, k: usize) -> u16
    requires { k < 8 }
    ensures { result ≡ word_of s mem.now p k }
{
    let at = place_of(s.base, s.block, p, k);
    mem.get(at).copied().unwrap_or(0)
}

// What port p's block holds before an inspection: ICW, OCW and IBP.
#[derive(Clone, Copy)]
pub struct Before {
    pub icw: u16,
    pub ocw: u16,
    pub ibp: u16,
}

// What is seen of it.
pub fn seen(s: Setting, mem: &[u16], p: u32) -> Before
    ensures { result ≡ seen s mem.now p }
{
    Before {
        icw: word_of(s, mem, p, ICW),
        ocw: word_of(s, mem, p, OCW),
        ibp: word_of(s, mem, p, IBP),
    }
}
