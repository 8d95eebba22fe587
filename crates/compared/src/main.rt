// The proved code, compared with the second program: reads the text of sessions (tests/second/FORMAT.md) on standard input, makes each call and prints the lines that the text asks for.
// An order stays the number that it is in the text, here and in the definitions (`call_of`, `order_by`): each number is some order, so an enum of them would be the table of FORMAT.md once more.
#![tactic(auto, unfolding(ground::specs::Choose::pick, crate::specs::Orders::signal_of, crate::specs::Orders::order_of, crate::specs::Orders::act_of, crate::specs::Orders::call_of, crate::specs::Orders::set_of, crate::specs::Said::beside_of, crate::specs::Said::looked_of, crate::specs::Session::called_lent, crate::specs::Session::standing, crate::specs::Session::unit_order, crate::specs::Session::cells_after, crate::specs::Session::cells_order, crate::specs::Session::kind_order, crate::specs::Session::set_order, crate::specs::Session::desk_order, crate::specs::Session::host_order, crate::specs::Session::end_order, crate::specs::Session::write_order, crate::specs::Session::frame_in, crate::specs::Session::arrive_order, crate::specs::Session::frame_order, crate::specs::Session::late_order, crate::specs::Session::order_by, crate::specs::Session::take_byte))]

mod frames;

ghost use Rattle.std.specs.Prelude.{◌≡◌, take, drop};
ghost use Rattle.ground.specs.Choose.{Below};
ghost use Rattle.framing.specs.Number.{form_numbered};
ghost use Rattle.framing.specs.Read.{frame_of};
ghost use Rattle.unit.specs.Reply.{world, accepted, answer_of, reply_of};
ghost use Rattle.unit.specs.Record.{no_mux};
ghost use Rattle.unit.specs.Setup.{setup};
ghost use Rattle.calls.specs.Calls.{step};
ghost use Rattle.door.specs.Door.{lent};
ghost use Rattle.driver.specs.Digest.{digest};
ghost use Rattle.driver.specs.Text.{HeardFrom};
ghost use Rattle.driver.specs.Printed.{nothing};
ghost use Rattle.compared.specs.Orders.{nth, setting_of, signal_of, order_of, act_of, call_of, set_of, arrival_call};
ghost use Rattle.compared.specs.Desk.{kept, desk_of, new_desk};
ghost use Rattle.compared.specs.Said.{saying, answer_said, told_of, looked_of, unit_said, whole_said, speed_said, read_said};
ghost use Rattle.compared.specs.Session.{lent_back, called_lent, arrived_after, unit_order, host_order, end_order, write_order, frame_in, arrive_order, order, take_byte, Driven};

use crate::frames::{
    arrived_line, form_at, form_line, read_lent, read_line, write_lent, written_line,
};
use calls::call::{Act, Call, What, asking, setting_up};
use driver::digest::{number, of_record, of_window, of_words};
use driver::host::{fill, fill_cells, lent, put_bytes, set_all, write};
use driver::poke::{kind_of, poked, poked_place, poked_port, poked_special};
use driver::read::{Line, Takes, blank, read_all, typed};
use driver::say::{Said, and, nothing, print};
use framing::form::Form;
use framing::read::Frame;
use lines::signal::Signal;
use processor::orders::Order;
use std::io::Read;
use std::marker::Model;
use unit::mux::{Mux, Setting};
use unit::refusal::Refusal;
use unit::reply;
use unit::reply::{Answer, Reply};
use unit::setup::{no_mux, setup};
use wire::arrival_of;
use words::special::{set_1974, with_code};
use words::speed::speed_of;

// How many words the memory has.
const WORDS: usize = 40000;

// How many places the list has.
const PLACES: usize = 4200;

// What the driver keeps beside the memory and the list: the line being read, the unit, how many words and places are lent, the set and the kind that setups are given, the cells and which of them are lent.
// The kind stays the number of order 15, which the definition `with_kind` keeps. The arrays have the sizes of FORMAT.md, and no length beside them.
#[derive(Drop)]
struct Desk {
    line: Line,
    unit: Mux,
    words: u32,
    places: u32,
    codes: [bool; 128],
    kind: u32,
    cells: [u8; 512],
    from: u32,
    lent: u32,
}

// The desk, all the words of the memory and all the places of the list.
#[derive(Drop)]
struct Session {
    desk: Desk,
    memory: [u16; WORDS],
    list: [u16; PLACES],
}

impl Model for Session {
    ghost use Rattle.compared.specs.Desk.{Kept, kept, desk_of};

    ghost Value = { Kept };

    ghost view = { λ s. kept (desk_of s.desk) s.memory s.list };
}

// Orders 2 to 4: what a line does.
fn signal_of(n: [u32; 5]) -> Signal
    ensures { result ≡ signal_of n }
{
    match n[0] {
        2 => Signal::Arrival {
            c: (n[2] % 256) as u8,
            parity: n[3] != 0,
            brk: n[4] != 0,
        },
        3 => Signal::TransmitterEmpty,
        _ => Signal::DeviceStatus { level: n[2] != 0 },
    }
}

// Orders 5 to 12: what the processor does. No From, since both types are of other crates; a recording has other numbers (replay).
fn order_of(op: u32) -> Order
    ensures { result ≡ order_of op }
{
    match op {
        5 => Order::Reset,
        6 => Order::Iopls,
        7 => Order::Start,
        8 => Order::Doc,
        9 => Order::Dob,
        10 => Order::Dia,
        11 => Order::Dias,
        _ => Order::Tick,
    }
}

// Orders 2 to 13: one thing asked of the unit that stands.
fn act_of(n: [u32; 5]) -> Act
    ensures { result ≡ act_of n }
{
    match n[0] {
        0..=4 => Act::Line {
            port: n[1],
            signal: signal_of(n),
        },
        5..=12 => Act::Processor {
            order: order_of(n[0]),
        },
        _ => Act::Inspect,
    }
}

// Orders 1 to 14 as a call; the setting is order 1's.
fn call_of(s: Setting, n: [u32; 5]) -> Call
    ensures { result ≡ call_of s n }
{
    match n[0] {
        1 => setting_up(s),
        0..=13 => asking(What::Do { act: act_of(n) }),
        _ => asking(What::Sweep { n: n[1] }),
    }
}

// The record that setup gave back: of zeros, where it was refused.
fn made(s: Setting) -> Mux
    ensures { result ≡ (setup s).mux }
{
    match setup(s) {
        Ok(r) => r.mux,
        Err(e) => e.mux,
    }
}

// The line with what an inspection answers.
fn answered(s: Said, a: Answer) -> Said
    ensures { result ≡ saying s (answer_said (answer_of a)) }
{
    let t = and(and(s, u8::from(a.turn) as u64), a.port as u64);
    let b = and(and(t, number(a.sent.is_some())), a.sent.unwrap_or(0) as u64);
    and(b, number(a.raised))
}

// The refusal number that is printed, 0 where there is none.
fn code_of(r: Result<Reply, Refusal>) -> u8
    ensures { result ≡ (reply_of r).code }
{
    match r {
        Ok(_) => 0,
        Err(e) => u8::from(e),
    }
}

// What stands beside the number of a refusal: zeros.
fn no_reply() -> Reply
    ensures { reply_of (Ok result) ≡ (accepted 0 no_mux).reply }
{
    Reply {
        value: 0,
        answer: reply::nothing(),
        made: 0,
        used: 0,
    }
}

// The line up to the record: the opcode, the refusal number, and what orders 1, 10, 11, 13 and 14 have beside it.
fn told(s: Setting, n: [u32; 5], r: Result<Reply, Refusal>) -> Said
    ensures { result ≡ saying nothing (told_of s n (reply_of r)) }
{
    let t = and(and(nothing(), n[0] as u64), code_of(r) as u64);
    let reply = r.unwrap_or(no_reply());
    match n[0] {
        1 => and(t, of_record(made(s))),
        10 | 11 => and(t, reply.value as u64),
        13 => answered(t, reply.answer),
        14 => and(and(t, reply.made as u64), reply.used as u64),
        _ => t,
    }
}

// Order 28: a whole set.
fn set_of(which: u32) -> [bool; 128]
    ensures { result ≡ set_of which }
{
    match which {
        0 => [false; 128],
        1 => [true; 128],
        _ => set_1974(),
    }
}

// The line of order 26: the speed that a control byte asks for.
fn speed_line(n: [u32; 5]) -> Said
    ensures { result ≡ saying nothing (speed_said n) }
{
    let control = (n[1] % 256) as u8;
    and(and(nothing(), n[0] as u64), speed_of(control) as u64)
}

// A call on the unit, the first words of the memory and the first places of the list. It is no method: of a slice of a slice of a field the check keeps nothing, in three forms that were tried.
fn called_lent(
    u: &mut Mux,
    words: u32,
    places: u32,
    memory: &mut [u16],
    list: &mut [u16],
    c: Call,
) -> Result<Reply, Refusal>
    ensures { lent (reply_of result) u.new memory.new list.new ≡ lent_back (step (world u.old (take words memory.old)) (take places list.old) c) (drop words memory.old) (drop places list.old) }
{
    let m = lent(words, memory.len());
    let k = lent(places, list.len());
    door::call(u, &mut memory[..m], &mut list[..k], c)
}

// The call that order 35 makes of a frame.
fn arrival(port: u32, r: Frame) -> Call
    ensures { result ≡ arrival_call port (frame_of (Ok r)) }
{
    asking(What::Do {
        act: Act::Line {
            port,
            signal: arrival_of(r),
        },
    })
}

impl Desk {
    // The desk at the start of a session.
    fn new() -> Self
        ensures { desk_of result ≡ new_desk }
    {
        Desk {
            line: blank(),
            unit: no_mux(),
            words: 32768,
            places: 0,
            codes: set_1974(),
            kind: 0,
            cells: [0; 512],
            from: 0,
            lent: 0,
        }
    }

    // Order 1: the setting that setup is asked for, with the kind and the set that stand.
    fn setting(&self, n: [u32; 5]) -> Setting
        ensures { result ≡ setting_of self.now.kind self.now.codes n }
    {
        Setting {
            kind: kind_of(self.kind),
            block: n[1],
            ports: n[2],
            base: n[3],
            special: self.codes,
        }
    }

    // Order 32: a frame is written into the cells lent.
    fn write_order(&mut self, n: [u32; 5])
        ensures { desk_of self.new ≡ write_order (desk_of self.old) n }
    {
        let from = self.from;
        let count = self.lent;
        let c = (n[2] % 256) as u8;
        let w = write_lent(Form::from(n[1]), c, &mut self.cells, from, count);
        print(written_line(n[0], w, &self.cells));
    }

    // A frame read from the cells lent.
    fn frame_in(&self, f: Form) -> Result<Frame, framing::refusal::Refusal>
        ensures { frame_of result ≡ frame_in (desk_of self.now) f }
    {
        read_lent(f, &self.cells, self.from, self.lent)
    }

    // The line of order 33.
    fn frame_line(&self, n: [u32; 5]) -> Said
        ensures { result ≡ saying nothing (read_said (nth n 0) (frame_in (desk_of self.now) (form_numbered (nth n 1))) self.now.cells) }
    {
        read_line(n[0], self.frame_in(Form::from(n[1])), &self.cells)
    }
}

impl Session {
    // One call on the unit, on what is lent of the memory and of the list.
    fn called(&mut self, c: Call) -> Result<Reply, Refusal>
        ensures reply { reply_of result ≡ (called_lent self.old c).reply }
        ensures left { self.new ≡ arrived_after self.old.desk (called_lent self.old c) }
    {
        let words = self.desk.words;
        let places = self.desk.places;
        called_lent(
            &mut self.desk.unit,
            words,
            places,
            &mut self.memory,
            &mut self.list,
            c,
        )
    }

    // The digest of the places that are lent.
    fn of_lent(&self) -> u64
        ensures { Below 2147483647 (digest (take self.now.desk.places self.now.list)) result }
    {
        let k = lent(self.desk.places, self.list.len());
        of_words(&self.list[..k])
    }

    // The line after the record: the window of orders 13 and 14, and the list of order 14.
    fn looked(&self, s: Said, n: [u32; 5]) -> Said
        ensures { result ≡ saying s (looked_of n self.now.desk.places self.now.memory self.now.list) }
    {
        match n[0] {
            13 => and(s, of_window(&self.memory, n[1])),
            14 => and(and(s, of_window(&self.memory, n[2])), self.of_lent()),
            _ => s,
        }
    }

    // The line of orders 1 to 14, of what the call left.
    fn unit_line(&self, s: Setting, n: [u32; 5], r: Result<Reply, Refusal>) -> Said
        ensures { result ≡ saying nothing (unit_said s n (reply_of r) self.now.desk.unit self.now.desk.places self.now.memory self.now.list) }
    {
        self.looked(and(told(s, n, r), of_record(self.desk.unit)), n)
    }

    // Orders 1 to 14: the call, which is printed; a setup with take 1 is taken, refused or not.
    fn unit_order(&mut self, n: [u32; 5])
        ensures { self.new ≡ unit_order self.old n }
    {
        let s = self.desk.setting(n);
        let r = self.called(call_of(s, n));
        if n[0] == 1 && n[4] == 1 {
            self.desk.unit = made(s);
        }
        print(self.unit_line(s, n, r));
    }

    // Orders 15 to 25 and 27 to 29: what the host does.
    fn host_order(&mut self, n: [u32; 5])
        ensures { self.new ≡ host_order self.old n }
    {
        match n[0] {
            15 => self.desk.kind = n[1],
            16 => self.desk.unit = poked_place(self.desk.unit, n[1], n[2]),
            17 => put_bytes(&mut self.desk.cells, n[1], n[2]),
            18 => fill_cells(&mut self.desk.cells, n[1], n[2]),
            19 => {
                self.desk.from = n[1];
                self.desk.lent = n[2];
            }
            20 => write(&mut self.memory, n[1], n[2]),
            21 => fill(&mut self.memory, n[1]),
            22 => self.desk.words = n[1],
            23 => {
                set_all(&mut self.list, (n[2] % 65536) as u16);
                self.desk.places = n[1];
            }
            24 => self.desk.unit = poked(self.desk.unit, n[1], n[2]),
            25 => self.desk.unit = poked_port(self.desk.unit, n[1], n[2], n[3]),
            27 => self.desk.codes = with_code(self.desk.codes, (n[1] % 256) as u8, n[2] != 0),
            28 => self.desk.codes = set_of(n[1]),
            29 => self.desk.unit = poked_special(self.desk.unit, n[1], n[2]),
            _ => {}
        }
    }

    // The line of orders 30 and 31: the whole digest.
    fn whole_line(&self, op: u32) -> Said
        ensures { result ≡ saying nothing (whole_said op self.now.memory self.now.list) }
    {
        let s = and(and(nothing(), op as u64), of_words(&self.memory));
        and(s, of_words(&self.list))
    }

    // Orders 30 and 31: the whole digest is printed; after 31 a new session begins.
    fn end_order(&mut self, op: u32)
        ensures { self.new ≡ end_order self.old op }
    {
        print(self.whole_line(op));
        if op == 31 {
            set_all(&mut self.memory, 0);
            set_all(&mut self.list, 0);
            self.desk = Desk::new();
        }
    }

    // Order 35: a frame is read by the port's control bits and given to an arrival; where it is refused no call is made.
    fn arrive_order(&mut self, n: [u32; 5])
        ensures { self.new ≡ arrive_order self.old n }
    {
        let r = self.desk.frame_in(form_at(self.desk.unit, n[1]));
        let called = match r {
            Ok(f) => code_of(self.called(arrival(n[1], f))),
            Err(_) => 0,
        };
        print(arrived_line(n[0], r, called, self.desk.unit));
    }

    // The order of the line that has been read.
    fn order(&mut self)
        ensures { self.new ≡ order self.old }
    {
        let n = self.desk.line.n;
        match n[0] {
            0..=14 => self.unit_order(n),
            26 => print(speed_line(n)),
            0..=29 => self.host_order(n),
            32 => self.desk.write_order(n),
            33 => print(self.desk.frame_line(n)),
            34 => print(form_line(n[0], (n[1] % 256) as u8)),
            35 => self.arrive_order(n),
            _ => self.end_order(n[0]),
        }
    }
}

impl Takes for Session {
    ghost use Rattle.compared.specs.Session.{take_byte};

    ghost takes = { take_byte };

    // One byte of the text; a newline carries the order out.
    fn take_byte<P: Print>(&mut self, _rt: &P, b: u8) {
        self.desk.line = typed(self.desk.line, b);
        if b == 10 {
            self.order();
            self.desk.line = blank();
        }
    }
}

// A whole run: all that the reader has is taken, from the start of a session on.
fn drive<R: Read, P: Print>(reader: &mut R, rt: &P, s: &mut Session)
    ensures heard { HeardFrom (R.remaining reader.old) (R.remaining reader.new) take_byte (kept new_desk s.old.memory s.old.list) s.new }
    ensures driven { Driven s.old.memory s.old.list s.new.memory s.new.list }
{
    s.desk = Desk::new();
    read_all(reader, rt, s);
}

fn main(rt: HostRuntime) {
    let mut s = Session {
        desk: Desk::new(),
        memory: [0; WORDS],
        list: [0; PLACES],
    };
    drive(&mut rt.reader(), &rt, &mut s);
}
