// An event as the call that it records, and a call as its event. No conversion here can be a From: each goes between types of other crates.
#![tactic(auto, using(crate::proofs::Bits::same_bit), unfolding(ground::specs::Choose::pick, crate::specs::Calls::kind_of, crate::specs::Calls::signal_of, crate::specs::Calls::order_of, crate::specs::Calls::act_of, crate::specs::Calls::call_of, crate::specs::Calls::kind_number, crate::specs::Calls::line_event, crate::specs::Calls::order_tag, crate::specs::Calls::act_event, crate::specs::Calls::what_event))]

ghost use Rattle.std.specs.Prelude.{◌≡◌};
ghost use Rattle.recording.specs.Tag.{tag_number};
ghost use Rattle.replay.specs.Calls.{kind_of, setting_of, signal_of, order_of, act_of, call_of, kind_number, bare_event, setup_event, line_event, order_tag, act_event, event_of, write_event};

use calls::call::{Act, Call, What, asking, setting_up};
use interrupt::Kind;
use lines::signal::Signal;
use processor::orders::Order;
use recording::event::{Event, no_event};
use recording::tag::Tag;
use unit::mux::Setting;

// The kind of unit by its number.
fn kind_of(n: u32) -> Kind
    ensures { result ≡ kind_of n }
{
    match n {
        0 => Kind::Eds8,
        _ => Kind::MightyMux,
    }
}

// What setup was given.
fn setting_of(e: Event) -> Setting
    ensures { result ≡ setting_of e }
{
    let special = e.set;
    Setting {
        kind: kind_of(e.first),
        block: e.second,
        ports: e.third,
        base: e.fourth,
        special,
    }
}

// What a line did.
fn signal_of(e: Event) -> Signal
    ensures { result ≡ signal_of e }
{
    match Tag::try_from(e.tag) {
        Ok(Tag::Arrival) => Signal::Arrival {
            c: (e.second % 256) as u8,
            parity: e.third != 0,
            brk: e.fourth != 0,
        },
        Ok(Tag::TransmitterEmpty) => Signal::TransmitterEmpty,
        _ => Signal::DeviceStatus {
            level: e.second != 0,
        },
    }
}

// What the processor did.
fn order_of(tag: u8) -> Order
    ensures { result ≡ order_of tag }
{
    match Tag::try_from(tag) {
        Ok(Tag::Reset) => Order::Reset,
        Ok(Tag::Iopls) => Order::Iopls,
        Ok(Tag::Start) => Order::Start,
        Ok(Tag::Doc) => Order::Doc,
        Ok(Tag::Dob) => Order::Dob,
        Ok(Tag::Dia) => Order::Dia,
        Ok(Tag::Dias) => Order::Dias,
        _ => Order::Tick,
    }
}

// One thing asked of the unit that stands: the tags of a line come before a sweep's.
fn act_of(e: Event) -> Act
    ensures { result ≡ act_of e }
{
    if e.tag < Tag::Sweep as u8 {
        return Act::Line {
            port: e.first,
            signal: signal_of(e),
        };
    }
    if e.tag == Tag::Inspection as u8 {
        return Act::Inspect;
    }
    Act::Processor {
        order: order_of(e.tag),
    }
}

// The call that an event records; a host write is none.
pub fn call_of(e: Event) -> Call
    ensures { result ≡ call_of e }
{
    match Tag::try_from(e.tag) {
        Ok(Tag::Setup) => setting_up(setting_of(e)),
        Ok(Tag::Sweep) => asking(What::Sweep { n: e.first }),
        _ => asking(What::Do { act: act_of(e) }),
    }
}

// The number of a kind of unit.
fn kind_number(k: Kind) -> u32
    ensures { result ≡ kind_number k }
{
    k as u32
}

// An event with two numbers and no set.
fn bare_event(tag: Tag, first: u32, second: u32) -> Event
    ensures { result ≡ bare_event (tag_number tag) first second }
{
    Event {
        tag: u8::from(tag),
        first,
        second,
        ..no_event()
    }
}

// The event of a setup.
fn setup_event(s: Setting) -> Event
    ensures { result ≡ setup_event s }
{
    let set = s.special;
    Event {
        tag: u8::from(Tag::Setup),
        first: kind_number(s.kind),
        second: s.block,
        third: s.ports,
        fourth: s.base,
        set,
    }
}

// The event of a line's signal.
fn line_event(port: u32, signal: Signal) -> Event
    ensures { result ≡ line_event port signal }
{
    match signal {
        Signal::Arrival { c, parity, brk } => Event {
            third: u32::from(parity),
            fourth: u32::from(brk),
            ..bare_event(Tag::Arrival, port, u32::from(c))
        },
        Signal::TransmitterEmpty => bare_event(Tag::TransmitterEmpty, port, 0),
        Signal::DeviceStatus { level } => bare_event(Tag::DeviceStatus, port, u32::from(level)),
    }
}

// The tag of an order.
fn order_tag(o: Order) -> Tag
    ensures { tag_number result ≡ order_tag o }
{
    match o {
        Order::Reset => Tag::Reset,
        Order::Iopls => Tag::Iopls,
        Order::Start => Tag::Start,
        Order::Doc => Tag::Doc,
        Order::Dob => Tag::Dob,
        Order::Dia => Tag::Dia,
        Order::Dias => Tag::Dias,
        Order::Tick => Tag::Tick,
    }
}

// The event of one thing asked of the unit that stands.
fn act_event(a: Act) -> Event
    ensures { result ≡ act_event a }
{
    match a {
        Act::Line { port, signal } => line_event(port, signal),
        Act::Processor { order } => bare_event(order_tag(order), 0, 0),
        Act::Inspect => bare_event(Tag::Inspection, 0, 0),
    }
}

// The event of a call with a list of so many places; only a sweep's has its length.
pub fn event_of(c: Call, list: u32) -> Event
    ensures { result ≡ event_of c list }
{
    match c.what {
        What::Setup => setup_event(c.setting),
        What::Do { act } => act_event(act),
        What::Sweep { n } => bare_event(Tag::Sweep, n, list),
    }
}

// The event of a host write of one word.
pub fn write_event(address: u32, word: u16) -> Event
    ensures { result ≡ write_event address word }
{
    bare_event(Tag::HostWrite, address, u32::from(word))
}
