// What a call asks.
ghost use Rattle.std.specs.Prelude.{◌≡◌};
ghost use Rattle.telling.specs.Words.{kind_words, glottal_words, order_words, mark};

use calls::call::{Act, Call, What};
use interrupt::Kind;
use lines::signal::Signal;
use processor::orders::Order;
use std::fmt;
use unit::mux::Setting;
use words::special::special_in;

// A kind of unit.
fn kind_words(k: Kind) -> &'static str
    ensures { result.now ≡ kind_words k }
{
    match k {
        Kind::Eds8 => "an EDS-8",
        Kind::MightyMux => "a Mighty Mux",
    }
}

// What the set says of the glottal stop.
fn glottal_words(codes: [bool; 128]) -> &'static str
    ensures { result.now ≡ glottal_words codes }
{
    if special_in(codes, 0o174) {
        "special"
    } else {
        "ordinary"
    }
}

// What the processor does.
fn order_words(o: Order) -> &'static str
    ensures { result.now ≡ order_words o }
{
    match o {
        Order::Reset => "reset",
        Order::Iopls => "IOPLS",
        Order::Start => "START",
        Order::Doc => "DOC",
        Order::Dob => "DOB",
        Order::Dia => "DIA",
        Order::Dias => "DIAS",
        Order::Tick => "a tick of the clock",
    }
}

// What a setup asks.
fn write_setting<W: fmt::Write>(f: &mut fmt::Formatter<W>, s: Setting) -> fmt::Result {
    let kind = kind_words(s.kind);
    let glottal = glottal_words(s.special);
    write!(
        f,
        "setup of {kind}, blocks of {} words, {} ports, base {}, octal 174 {glottal}",
        s.block, s.ports, s.base
    )
}

// A mark, where it is on.
fn mark(on: bool, words: &'static str) -> &'static str
    ensures { result.now ≡ mark on words.now }
{
    if on { words } else { "" }
}

// What a line does.
fn write_signal<W: fmt::Write>(
    f: &mut fmt::Formatter<W>,
    port: u32,
    signal: Signal,
) -> fmt::Result {
    match signal {
        Signal::Arrival { c, parity, brk } => {
            let parity = mark(parity, ", parity mark");
            let brk = mark(brk, ", break mark");
            write!(f, "typed at port {port}: octal {c:03o}{parity}{brk}")
        }
        Signal::TransmitterEmpty => write!(f, "transmitter empty at port {port}"),
        Signal::DeviceStatus { level } => {
            write!(f, "Device Status of port {port}: {}", u8::from(level))
        }
    }
}

// One thing asked of the unit that stands.
#[derive(Clone, Copy)]
pub struct Doing(pub Act);

impl fmt::Display for Doing {
    fn fmt<W: fmt::Write>(&self, f: &mut fmt::Formatter<W>) -> fmt::Result {
        match self.0 {
            Act::Line { port, signal } => write_signal(f, port, signal),
            Act::Processor { order } => write!(f, "{}", order_words(order)),
            Act::Inspect => write!(f, "an inspection"),
        }
    }
}

// What a call asks.
#[derive(Clone, Copy)]
pub struct Asked(pub Call);

impl fmt::Display for Asked {
    fn fmt<W: fmt::Write>(&self, f: &mut fmt::Formatter<W>) -> fmt::Result {
        let c = self.0;
        match c.what {
            What::Setup => write_setting(f, c.setting),
            What::Do { act } => write!(f, "{}", Doing(act)),
            What::Sweep { n } => write!(f, "a sweep of {n}"),
        }
    }
}
