// The record of the unit and its ports (document 01, the unit and the host's memory), and where a port's control block lies.
ghost use Rattle.std.specs.Prelude.{◌≡◌, ◌<◌};
ghost use Rattle.ground.specs.Choose.{Below};
ghost use Rattle.unit.specs.Record.{port_at, with_port, block_at, address_at};
ghost use Rattle.unit.specs.Sound.{Fits};

use interrupt::{Irq, Kind};

// What setup takes: the kind of unit, block size, P, base, and the set of special codes, a yes or no for each of the 128 seven-bit codes.
#[derive(Clone, Copy)]
pub struct Setting {
    pub kind: Kind,
    pub block: u32,
    pub ports: u32,
    pub base: u32,
    pub special: [bool; 128],
}

// A character as it was received: its code, and the parity, break and overload marks.
#[derive(Clone, Copy)]
pub struct Character {
    pub byte: u8,
    pub parity: bool,
    pub brk: bool,
    pub overload: bool,
}

// A port: the held character, whether the transmitter's buffer is empty, the eight control bits, the Device Control level, the Device Status line.
// `held` stands beside the character, and no Option holds it: the record that is lent is any record, and what a call keeps of it is kept also where none is held (door::call).
#[derive(Clone, Copy)]
pub struct Port {
    pub held: bool,
    pub ch: Character,
    pub empty: bool,
    pub control: u8,
    pub devcontrol: bool,
    pub devstatus: bool,
}

// The unit: its setting, the scan position, whether the unit and the 10 ms clock run, the interrupt side, the ports.
// The ports are an array of 128, of which the setting's P are served, and no Vec: there is no heap, and the record that is lent has one size (door::call).
#[derive(Clone, Copy)]
pub struct Mux {
    pub setting: Setting,
    pub pos: u32,
    pub runs: bool,
    pub clock: bool,
    pub irq: Irq,
    pub port: [Port; 128],
}

// The port p of the record.
#[tactic(auto, unfolding(crate::specs::Record::port_at))]
pub fn port_at(u: Mux, p: u32) -> Port
    requires { p < 128 }
    ensures { result ≡ port_at u p }
{
    u.port[p as usize]
}

// The record with q as its port p.
pub fn with_port(mut u: Mux, p: u32, q: Port) -> Mux
    requires { p < 128 }
    ensures { result ≡ with_port u p q }
{
    u.port[p as usize] = q;
    u
}

// The first word of port p's control block. Its eight words lie in the memory.
#[tactic(auto, using(crate::proofs::laws::Sound::block_inside), unfolding(crate::specs::Record::block_at))]
pub fn block_at(s: Setting, p: u32) -> usize
    requires fits { Fits s }
    requires p_lt_ports { p < s.ports }
    ensures { Below 32761 (block_at s p) result }
{
    (s.base + p * s.block) as usize
}

// The address of port p, as the status word has it.
#[tactic(auto, unfolding(crate::specs::Record::address_at))]
pub fn address_at(s: Setting, p: u32) -> u16
    requires fits { Fits s }
    requires p_lt_ports { p < s.ports }
    ensures { Below 128 (address_at s p) result }
{
    ((s.base / s.block + p) % 128) as u16
}
