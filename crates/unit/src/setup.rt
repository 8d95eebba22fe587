// Setup: a new unit, or the number and the record of zeros.
ghost use Rattle.std.specs.Prelude.{◌≡◌};
ghost use Rattle.unit.specs.Record.{no_character, no_port, fresh_port, no_setting, fresh, no_mux};
ghost use Rattle.unit.specs.Reply.{setup_of};
ghost use Rattle.unit.specs.Setup.{setup};

use crate::mux::{Character, Mux, Port, Setting};
use crate::refusal::{Refusal, setup_refusal};
use crate::reply::{Replied, accepted};
use interrupt::Kind;

// No character: the fields where none is held.
pub fn no_character() -> Character
    ensures { result ≡ no_character }
{
    Character {
        byte: 0,
        parity: false,
        brk: false,
        overload: false,
    }
}

// A port of zeros.
fn no_port() -> Port
    ensures { result ≡ no_port }
{
    Port {
        held: false,
        ch: no_character(),
        empty: false,
        control: 0,
        devcontrol: false,
        devstatus: false,
    }
}

// A port of a fresh unit.
fn fresh_port() -> Port
    ensures { result ≡ fresh_port }
{
    Port {
        empty: true,
        devcontrol: true,
        ..no_port()
    }
}

// A setting of zeros, which is an EDS-8's.
pub fn no_setting() -> Setting
    ensures { result ≡ no_setting }
{
    Setting {
        kind: Kind::Eds8,
        block: 0,
        ports: 0,
        base: 0,
        special: [false; 128],
    }
}

// The record of zeros.
pub fn no_mux() -> Mux
    ensures { result ≡ no_mux }
{
    Mux {
        setting: no_setting(),
        pos: 0,
        runs: false,
        clock: false,
        irq: interrupt::fresh(),
        port: [no_port(); 128],
    }
}

// A fresh unit.
fn fresh(s: Setting) -> Mux
    ensures { result ≡ fresh s }
{
    Mux {
        setting: s,
        pos: 0,
        runs: false,
        clock: false,
        irq: interrupt::fresh(),
        port: [fresh_port(); 128],
    }
}

// What a refused setup gives: why, and the record of zeros.
#[derive(Clone, Copy)]
pub struct NoUnit {
    pub refusal: Refusal,
    pub mux: Mux,
}

// Setup.
#[tactic(auto, using(crate::proofs::Found::refuses, crate::proofs::Found::takes), unfolding(crate::specs::Setup::setup))]
pub fn setup(s: Setting) -> Result<Replied, NoUnit>
    ensures { setup_of result ≡ setup s }
{
    setup_refusal(s).map_err(|refusal| NoUnit {
        refusal,
        mux: no_mux(),
    })?;
    Ok(accepted(0, fresh(s)))
}
