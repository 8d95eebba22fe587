// Pokes (orders 16, 24, 25 and 29): one field of the record, or one field of a port, by its number, one place of the record's stack, or one code of its set.
#![tactic(auto, unfolding(ground::specs::Choose::pick, crate::specs::Poke::kind_of, crate::specs::Poke::poked_setting, crate::specs::Poke::poked_irq, crate::specs::Poke::poked, crate::specs::Poke::poked_place, crate::specs::Poke::poked_character, crate::specs::Poke::poked_field, crate::specs::Poke::poked_port, crate::specs::Poke::poked_special))]

ghost use Rattle.std.specs.Prelude.{◌≡◌};
ghost use Rattle.driver.specs.Poke.{kind_of, poked, poked_place, poked_field, poked_port, poked_special};

use interrupt::Kind;
use unit::mux::{Mux, Port, port_at, with_port};
use words::special::with_code;

// The kind of a number: 0 EDS-8, any other Mighty Mux.
// It stays a function: a From would stand in crate interrupt, and these numbers are the text's alone.
pub fn kind_of(v: u32) -> Kind
    ensures { result ≡ kind_of v }
{
    match v {
        0 => Kind::Eds8,
        _ => Kind::MightyMux,
    }
}

// The record with a field poked.
pub fn poked(u: Mux, field: u32, value: u32) -> Mux
    ensures { result ≡ poked u field value }
{
    let mut v = u;
    match field {
        0 => v.setting.block = value,
        1 => v.setting.ports = value,
        2 => v.setting.base = value,
        3 => v.pos = value,
        4 => v.runs = value != 0,
        5 => v.clock = value != 0,
        6 => v.irq.flag = value != 0,
        7 => v.irq.status = (value % 65536) as u16,
        8 => v.setting.kind = kind_of(value),
        9 => v.irq.lost = value != 0,
        10 => v.irq.fill = value,
        _ => {}
    }
    v
}

// The record with a place of its stack poked.
pub fn poked_place(u: Mux, place: u32, word: u32) -> Mux
    ensures { result ≡ poked_place u place word }
{
    let at = (place % 40) as usize;
    let mut v = u;
    v.irq.stack[at] = (word % 65536) as u16;
    v
}

// The port with a field poked.
fn poked_field(q: Port, field: u32, value: u32) -> Port
    ensures { result ≡ poked_field q field value }
{
    let mut r = q;
    match field {
        0 => r.held = value != 0,
        1 => r.ch.byte = (value % 256) as u8,
        2 => r.ch.parity = value != 0,
        3 => r.ch.brk = value != 0,
        4 => r.ch.overload = value != 0,
        5 => r.empty = value != 0,
        6 => r.control = (value % 256) as u8,
        7 => r.devcontrol = value != 0,
        8 => r.devstatus = value != 0,
        _ => {}
    }
    r
}

// The record with a field of port p poked.
pub fn poked_port(u: Mux, p: u32, field: u32, value: u32) -> Mux
    ensures { result ≡ poked_port u p field value }
{
    let at = p % 128;
    with_port(u, at, poked_field(port_at(u, at), field, value))
}

// The record with another word of its set on a code.
pub fn poked_special(u: Mux, code: u32, value: u32) -> Mux
    ensures { result ≡ poked_special u code value }
{
    let codes = u.setting.special;
    let mut v = u;
    v.setting.special = with_code(codes, (code % 256) as u8, value != 0);
    v
}
