// The refusals of the calls: the table of document 01 with the rows of K1 and K7 and without the one that K10 took out, row by row, and what each kind of call asks for first.
#![tactic(auto, unfolding(ground::specs::Choose::pick, ground::specs::Choose::first_of, crate::specs::Refusals::bad_block, crate::specs::Refusals::bad_ports, crate::specs::Refusals::misaligned, crate::specs::Refusals::too_high, crate::specs::Refusals::bad_location, crate::specs::Refusals::crosses, crate::specs::Refusals::size_rows, crate::specs::Refusals::base_rows, crate::specs::Refusals::area_rows))]

ghost use Rattle.std.specs.Prelude.{◌≡◌};
ghost use Rattle.ground.specs.Choose.{pick, first_of};
ghost use Rattle.unit.specs.Refusals.{bad_block, bad_ports, misaligned, too_high, bad_location, crosses, size_rows, base_rows, area_rows, refusal, of_setup, of_unit, of_port, of_inspection, of_sweep, unsound, number_of, code_of};
ghost use Rattle.unit.specs.Sound.{SizeFits, BaseFits};

use crate::mux::{Mux, Setting};
use interrupt::Kind;

// How many words the host's memory has.
pub use words::byte::WORDS;

// How many ports a unit may have, how many inspections a sweep may ask for.
pub const MOST_PORTS: u32 = 128;

pub const MOST_INSPECTIONS: u32 = 4096;

// A Mighty Mux's control area starts at a multiple of so many words (000, section 3.7.7).
pub const AREA_STEP: u32 = 0o400;

// What a call is refused for, with the numbers of specs/Refusals.antt; the one between 4 and 6 is retired.
#[derive(Clone, Copy, PartialEq, Eq, Debug)]
pub enum Refusal {
    BadBlock = 1,
    BadPorts = 2,
    Misaligned = 3,
    Crosses = 4,
    Unsound = 6,
    BadMemory = 7,
    NoPort = 8,
    TooMany = 9,
    ShortList = 10,
    TooHigh = 11,
    BadLocation = 12,
}

// Its number.
impl From<Refusal> for u8 {
    ghost from_gives = { λ r n. n ≡ number_of r };

    fn from(r: Refusal) -> u8 {
        r as u8
    }
}

// A row of the table.
fn refuse_if(applies: bool, r: Refusal) -> Result<(), Refusal>
    ensures { result ≡ pick applies (Err r) (Ok tt) }
{
    if applies { Err(r) } else { Ok(()) }
}

// Row 1: b is not 8, 16 or 32.
fn bad_block(b: u32) -> bool
    ensures { result ≡ bad_block b }
{
    !matches!(b, 8 | 16 | 32)
}

// Row 2: P is 0 or above 128.
fn bad_ports(n: u32) -> bool
    ensures { result ≡ bad_ports n }
{
    n == 0 || MOST_PORTS < n
}

// Row 3: the base is not a multiple of 8b.
fn misaligned(s: Setting) -> bool
    requires { SizeFits s }
    ensures { result ≡ misaligned s.block s.base }
{
    s.base % (8 * s.block) != 0
}

// Row 11: the base is above 32767.
pub fn too_high(a: u32) -> bool
    ensures { result ≡ too_high a }
{
    32767 < a
}

// Row 12: the base of a Mighty Mux is not a multiple of octal 400.
fn bad_location(k: Kind, a: u32) -> bool
    ensures { result ≡ bad_location k a }
{
    match k {
        Kind::Eds8 => false,
        Kind::MightyMux => a % AREA_STEP != 0,
    }
}

// Row 4: the area crosses a multiple of 128b.
fn crosses(s: Setting) -> bool
    requires size_fits { SizeFits s }
    requires base_fits { BaseFits s }
    ensures { result ≡ crosses s.block s.ports s.base }
{
    let span = 128 * s.block;
    s.base / span != (s.base + s.ports * s.block - 1) / span
}

// Rows 1 and 2: the sizes.
fn size_refusal(s: Setting) -> Result<(), Refusal>
    ensures { code_of result ≡ first_of (size_rows s) }
{
    refuse_if(bad_block(s.block), Refusal::BadBlock)?;
    refuse_if(bad_ports(s.ports), Refusal::BadPorts)
}

// Rows 3, 11 and 12: the base.
fn base_refusal(s: Setting) -> Result<(), Refusal>
    requires { SizeFits s }
    ensures { code_of result ≡ first_of (base_rows s) }
{
    refuse_if(misaligned(s), Refusal::Misaligned)?;
    refuse_if(too_high(s.base), Refusal::TooHigh)?;
    refuse_if(bad_location(s.kind, s.base), Refusal::BadLocation)
}

// Row 4: the area.
fn area_refusal(s: Setting) -> Result<(), Refusal>
    requires size_fits { SizeFits s }
    requires base_fits { BaseFits s }
    ensures { code_of result ≡ first_of (area_rows s) }
{
    refuse_if(crosses(s), Refusal::Crosses)
}

// What setup is refused with.
#[tactic(auto, using(crate::proofs::Found::size_stops, crate::proofs::Found::size_passes, crate::proofs::Found::base_stops, crate::proofs::Found::base_passes, crate::proofs::Found::area_says))]
pub fn setup_refusal(s: Setting) -> Result<(), Refusal>
    ensures { code_of result ≡ refusal (of_setup s) }
{
    size_refusal(s)?;
    base_refusal(s)?;
    area_refusal(s)
}

// Row 6: the record is unsound.
#[tactic(auto, using(crate::proofs::Found::unsound_by))]
fn unsound(u: Mux) -> bool
    ensures { result ≡ unsound u }
{
    setup_refusal(u.setting).is_err() || u.setting.ports <= u.pos || interrupt::unsound(u.irq)
}

// What a call on the record alone is refused with.
#[tactic(auto, unfolding(crate::specs::Refusals::refusal, crate::specs::Refusals::table_of, crate::specs::Refusals::rows_of, crate::specs::Refusals::call_rows, ground::specs::Choose::first_of, ground::specs::Choose::asked, ground::specs::Choose::pick))]
pub fn sound_refusal(u: Mux) -> Result<(), Refusal>
    ensures { code_of result ≡ refusal (of_unit u) }
{
    refuse_if(unsound(u), Refusal::Unsound)
}

// What a call on a port is refused with.
#[tactic(auto, using(crate::proofs::Found::port_stops, crate::proofs::Found::port_asks), unfolding(ground::specs::Choose::pick))]
pub fn port_refusal(u: Mux, p: u32) -> Result<(), Refusal>
    ensures { code_of result ≡ refusal (of_port u p) }
{
    sound_refusal(u)?;
    refuse_if(u.setting.ports <= p, Refusal::NoPort)
}

// What an inspection is refused with.
#[tactic(auto, using(crate::proofs::Found::inspection_stops, crate::proofs::Found::inspection_asks), unfolding(ground::specs::Choose::pick))]
pub fn inspect_refusal(u: Mux, mem: &[u16]) -> Result<(), Refusal>
    ensures { code_of result ≡ refusal (of_inspection u mem.now) }
{
    sound_refusal(u)?;
    refuse_if(mem.len() != WORDS, Refusal::BadMemory)
}

// What a sweep is refused with.
#[tactic(auto, using(crate::proofs::Found::sweep_stops, crate::proofs::Found::sweep_asks), unfolding(ground::specs::Choose::pick))]
pub fn sweep_refusal(u: Mux, mem: &[u16], n: u32, list: &[u16]) -> Result<(), Refusal>
    ensures { code_of result ≡ refusal (of_sweep u mem.now n list.now) }
{
    inspect_refusal(u, mem)?;
    refuse_if(MOST_INSPECTIONS < n, Refusal::TooMany)?;
    refuse_if(list.len() < n as usize, Refusal::ShortList)
}
