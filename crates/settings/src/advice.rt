// What a caretaker is told to type instead of a setting that setup refuses.
#![tactic(auto, unfolding(ground::specs::Choose::pick, unit::specs::Refusals::too_high, crate::specs::Advice::block_mended, crate::specs::Advice::ports_mended, crate::specs::Advice::sizes_mended, crate::specs::Advice::in_memory, crate::specs::Advice::step_of, crate::specs::Advice::base_mended, crate::specs::Advice::advised))]

ghost use Rattle.std.specs.Prelude.{◌≡◌, ◌<◌, ◌≤◌};
ghost use Rattle.ground.specs.Choose.{Below};
ghost use Rattle.unit.specs.Sound.{SizeFits};
ghost use Rattle.settings.specs.Advice.{block_mended, ports_mended, sizes_mended, in_memory, multiple_below, step_of, last_base, base_mended, advised};

use interrupt::Kind;
use unit::mux::Setting;
use unit::refusal::{AREA_STEP, MOST_PORTS};

// The block size, or 32, as delivered.
fn block_mended(b: u32) -> u32
    ensures { result ≡ block_mended b }
{
    match b {
        8 | 16 => b,
        _ => 32,
    }
}

// The number of ports, or the nearest that a unit can have.
fn ports_mended(n: u32) -> u32
    ensures { result ≡ ports_mended n }
{
    n.clamp(1, MOST_PORTS)
}

// The setting with both sizes mended.
fn sizes_mended(s: Setting) -> Setting
    ensures { result ≡ sizes_mended s }
{
    Setting {
        block: block_mended(s.block),
        ports: ports_mended(s.ports),
        ..s
    }
}

// A base, or the last word of the memory where it is above that.
fn in_memory(a: u32) -> u32
    ensures { Below 32768 (in_memory a) result }
{
    a.min(32767)
}

// The last multiple of m at or below a.
fn multiple_below(a: u32, m: u32) -> u32
    requires { 0 < m }
    ensures { result ≡ multiple_below m a }
{
    a - a % m
}

// The words from one base to the next of those that the kind of unit may have: 8 blocks, or octal 400 on a Mighty Mux.
fn step_of(k: Kind, b: u32) -> u32
    requires { b ≤ 32 }
    ensures { result ≡ step_of k b }
{
    match k {
        Kind::Eds8 => 8 * b,
        Kind::MightyMux => AREA_STEP,
    }
}

// The last base for the ports in the stretch of 128 blocks in which word a lies.
fn last_base(s: Setting, step: u32, a: u32) -> u32
    requires size_fits { SizeFits s }
    requires step_nonzero { 0 < step }
    requires a_bound { a < 32768 }
    ensures { result ≡ last_base step s.block s.ports a }
{
    multiple_below(a, 128 * s.block) + multiple_below((128 - s.ports) * s.block, step)
}

// The last base that will do, at or below that of the setting: one that the kind of unit may have, and not so high that the area leaves its stretch.
fn base_mended(s: Setting) -> u32
    requires { SizeFits s }
    ensures { result ≡ base_mended (step_of s.kind s.block) s.block s.ports s.base }
{
    let step = step_of(s.kind, s.block);
    let a = in_memory(s.base);
    let near = multiple_below(a, step);
    let last = last_base(s, step, a);
    near.min(last)
}

// A setting that setup takes: the sizes mended where they must be, and the base lowered as far as it must be.
pub fn advised(s: Setting) -> Setting
    ensures { result ≡ advised s }
{
    let sized = sizes_mended(s);
    Setting {
        base: base_mended(sized),
        ..sized
    }
}
