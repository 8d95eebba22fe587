// The session, part by part: a unit on its host's memory, what is asked of it and what its host writes, told in plain words on the way.
ghost use Rattle.std.specs.Prelude.{◌≡◌};
ghost use Rattle.unit.specs.Record.{no_mux};
ghost use Rattle.processor.specs.declared.orders.Order.TheVariants.{Dias};
ghost use Rattle.calls.specs.declared.call.Act.TheVariants.{Line, Processor, Inspect};
ghost use Rattle.unit.specs.Reply.{world, reply_of};
ghost use Rattle.calls.specs.Calls.{performed};
ghost use Rattle.words.specs.Codes.{at_ibp};
ghost use Rattle.telling.specs.Look.{word_of};
ghost use Rattle.watch.specs.Session.{looking, wrote, after, input_asked, turned, rotated, typed, keyed, keyed_three, set_up, began, prepared, opened, first_half, session, piled, ticked, read_twice, waiting, mighty};

use crate::blocks::{ask_input, put_control, put_input, put_output, three};
use calls::call::{Act, What, asking, setting_up};
use interrupt::Kind;
use lines::signal::Signal;
use processor::orders::Order;
use std::marker::Model;
use telling::asked::Doing;
use telling::look::{seen, word_of};
use telling::say::Bytes;
use telling::told::Read;
use telling::turn::Inspected;
use unit::mux::Mux;
use unit::refusal::Refusal;
use unit::reply::Reply;
use unit::setup::no_mux;
use words::byte::Memory;
use words::codes::{IBP, ICW, INDONE};
use words::field::is_set;
use words::special::set_1974;

// A unit on its host's memory: clauses see the world of both.
#[derive(Drop)]
pub struct Host {
    pub unit: Mux,
    pub memory: Memory,
}

impl Model for Host {
    ghost use Rattle.unit.specs.Reply.{World, world};

    ghost Value = { World };

    ghost view = { λ h. world h.unit h.memory };
}

impl Host {
    // A memory on which no unit is set up yet.
    pub fn new(memory: Memory) -> Host
        ensures { result ≡ world no_mux memory }
    {
        Host {
            unit: no_mux(),
            memory,
        }
    }

    // One thing asked of the unit. Only a sweep has a list, so it is given none.
    #[tactic(auto, unfolding(calls::specs::Calls::step_of))]
    fn asked(&mut self, act: Act) -> Result<Reply, Refusal>
        ensures { looking (reply_of result) self.new ≡ performed self.old act }
    {
        let mut none = [0u16; 1];
        door::call(
            &mut self.unit,
            &mut self.memory,
            &mut none,
            asking(What::Do { act }),
        )
    }

    // An order of the processor's.
    fn ordered(&mut self, order: Order)
        ensures { self.new ≡ after (Processor order) self.old }
    {
        let _ = self.asked(Act::Processor { order });
    }

    // A signal of port p's line.
    fn signalled(&mut self, p: u32, signal: Signal)
        ensures { self.new ≡ after (Line p signal) self.old }
    {
        let _ = self.asked(Act::Line { port: p, signal });
    }

    // One inspection, in plain words.
    fn watched(&mut self, rt: &impl Print)
        ensures { self.new ≡ after Inspect self.old }
    {
        let before = seen(self.unit.setting, &self.memory, self.unit.pos);
        if let Ok(reply) = self.asked(Act::Inspect) {
            let told = Inspected {
                answer: reply.answer,
                setting: self.unit.setting,
                irq: self.unit.irq,
                mem: &self.memory,
                before,
            };
            let _ = println!(rt; "{told}");
        }
    }

    // One inspection; the processor takes the status by DIAS, and the port's transmitter runs empty.
    #[tactic(auto, unfolding(crate::specs::Session::turned))]
    fn turned(&mut self, rt: &impl Print)
        ensures { self.new ≡ turned self.old }
    {
        let p = self.unit.pos;
        self.watched(rt);
        self.ordered(Order::Dias);
        self.signalled(p, Signal::TransmitterEmpty);
    }

    // A rotation: an inspection of each of the three ports.
    #[tactic(auto, unfolding(crate::specs::Session::rotated))]
    fn rotated(&mut self, rt: &impl Print)
        ensures { self.new ≡ rotated self.old }
    {
        self.turned(rt);
        self.turned(rt);
        self.turned(rt);
    }

    // A character typed at port p.
    #[tactic(auto, unfolding(crate::specs::Session::typed))]
    fn typed(&mut self, rt: &impl Print, p: u32, c: u8)
        ensures { self.new ≡ typed p c self.old }
    {
        let signal = Signal::Arrival {
            c,
            parity: false,
            brk: false,
        };
        let _ = println!(rt; "{}", Doing(Act::Line { port: p, signal }));
        self.signalled(p, signal);
    }

    // A character typed at port 0, and a rotation.
    #[tactic(auto, unfolding(crate::specs::Session::keyed))]
    fn keyed(&mut self, rt: &impl Print, c: u8)
        ensures { self.new ≡ keyed c self.old }
    {
        self.typed(rt, 0, c);
        self.rotated(rt);
    }

    // Three characters typed at port 0, a rotation after each.
    #[tactic(auto, unfolding(crate::specs::Session::keyed_three))]
    fn keyed_three(&mut self, rt: &impl Print, a: u8, b: u8, c: u8)
        ensures { self.new ≡ keyed_three a b c self.old }
    {
        self.keyed(rt, a);
        self.keyed(rt, b);
        self.keyed(rt, c);
    }

    // A new unit of three ports, of that kind and with that set; a setup has no list either.
    #[tactic(auto, unfolding(crate::specs::Session::set_up, calls::specs::Calls::step_of))]
    fn set_up(&mut self, kind: Kind, codes: [bool; 128])
        ensures { self.new ≡ set_up kind codes self.old.memory }
    {
        let mut none = [0u16; 1];
        self.unit = no_mux();
        let _ = door::call(
            &mut self.unit,
            &mut self.memory,
            &mut none,
            setting_up(three(kind, codes)),
        );
    }

    // The unit at the start of a session: it runs.
    #[tactic(auto, unfolding(crate::specs::Session::began))]
    fn began(&mut self, kind: Kind, codes: [bool; 128])
        ensures { self.new ≡ began kind codes self.old.memory }
    {
        self.set_up(kind, codes);
        self.ordered(Order::Doc);
    }

    // Port control at each port, and then the control blocks of the session.
    #[tactic(auto, unfolding(crate::specs::Session::prepared))]
    fn prepared(&mut self, rt: &impl Print)
        ensures { self.new ≡ prepared self.old }
    {
        put_control(&mut self.memory);
        let _ = println!(rt; "a unit of 3 ports runs; the host asks for port control at each");
        self.rotated(rt);
        put_input(&mut self.memory);
        put_output(&mut self.memory);
    }

    // Both, at an EDS-8 with that set.
    #[tactic(auto, unfolding(crate::specs::Session::opened))]
    fn opened(&mut self, rt: &impl Print, codes: [bool; 128])
        ensures { self.new ≡ opened codes self.old.memory }
    {
        self.began(Kind::Eds8, codes);
        self.prepared(rt);
    }

    // The first half of the name pu'uku, its glottal stop keyed as octal 174, and x at port 1.
    #[tactic(auto, unfolding(crate::specs::Session::first_half))]
    fn first_half(&mut self, rt: &impl Print)
        ensures { self.new ≡ first_half self.old }
    {
        self.typed(rt, 1, b'x');
        self.keyed_three(rt, b'p', b'u', 0o174);
    }

    // The host asks for input again, whatever it finds in ICW in the middle of the name: a character that is done, or its own word.
    fn asked_again(&mut self, rt: &impl Print)
        ensures { self.new ≡ wrote input_asked self.old }
    {
        let icw = word_of(self.unit.setting, &self.memory, 0, ICW);
        let found = if is_set(icw, INDONE) {
            "takes the special from ICW, and asks for input again"
        } else {
            "finds ICW as it wrote it, and asks for the same again"
        };
        let _ = println!(rt; "the host {found}");
        ask_input(&mut self.memory);
    }

    // The whole session, on the memory that there is, at a new unit with that set.
    #[tactic(auto, unfolding(crate::specs::Session::session))]
    pub fn session(&mut self, rt: &impl Print, codes: [bool; 128])
        ensures { self.new ≡ session codes self.old.memory }
    {
        self.opened(rt, codes);
        self.first_half(rt);
        self.asked_again(rt);
        self.keyed_three(rt, b'u', b'k', b'u');
    }

    // The buffer of port 0, from byte 2001 up to where IBP points.
    pub fn buffer(&self) -> Bytes<'_>
        ensures memory { result.mem.now ≡ self.now.memory }
        ensures before { result.before ≡ 2000 }
        ensures last { result.last ≡ word_of self.now.mux.setting self.now.memory 0 at_ibp }
    {
        Bytes {
            mem: &self.memory,
            before: 2000,
            last: word_of(self.unit.setting, &self.memory, 0, IBP),
        }
    }

    // Port control at each port, and an inspection of each, with nobody to read the status.
    #[tactic(auto, unfolding(crate::specs::Session::piled))]
    fn piled(&mut self, rt: &impl Print)
        ensures { self.new ≡ piled self.old }
    {
        put_control(&mut self.memory);
        self.watched(rt);
        self.watched(rt);
        self.watched(rt);
    }

    // A tick of the clock.
    #[tactic(auto, unfolding(crate::specs::Session::ticked))]
    fn ticked(&mut self, rt: &impl Print)
        ensures { self.new ≡ ticked self.old }
    {
        let order = Order::Tick;
        let _ = println!(rt; "{}", Doing(Act::Processor { order }));
        self.ordered(Order::Iopls);
        self.ordered(order);
    }

    // The processor reads by DIAS.
    fn read(&mut self, rt: &impl Print)
        ensures { self.new ≡ after (Processor Dias) self.old }
    {
        let order = Order::Dias;
        if let Ok(reply) = self.asked(Act::Processor { order }) {
            let value = reply.value;
            let flag = self.unit.irq.flag;
            let _ = println!(rt; "DIAS {}", Read { value, flag });
        }
    }

    // Twice.
    #[tactic(auto, unfolding(crate::specs::Session::read_twice))]
    fn read_twice(&mut self, rt: &impl Print)
        ensures { self.new ≡ read_twice self.old }
    {
        self.read(rt);
        self.read(rt);
    }

    // A Mighty Mux in which three interrupts and a tick wait to be read.
    #[tactic(auto, unfolding(crate::specs::Session::waiting))]
    fn waiting(&mut self, rt: &impl Print)
        ensures { self.new ≡ waiting self.old.memory }
    {
        self.began(Kind::MightyMux, set_1974());
        self.piled(rt);
        self.ticked(rt);
    }

    // They are read, with one DIAS more than there are entries.
    #[tactic(auto, unfolding(crate::specs::Session::mighty))]
    pub fn mighty(&mut self, rt: &impl Print)
        ensures { self.new ≡ mighty self.old.memory }
    {
        self.waiting(rt);
        self.read_twice(rt);
        self.read_twice(rt);
    }
}
