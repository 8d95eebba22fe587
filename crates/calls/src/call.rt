// The type of calls: it exists here and nowhere else.
ghost use Rattle.std.specs.Prelude.{◌≡◌};
ghost use Rattle.calls.specs.Calls.{asking, setting_up};

use lines::signal::Signal;
use processor::orders::Order;
use unit::mux::Setting;
use unit::setup::no_setting;

// One thing asked of the unit that stands: a signal of a line at a port, an order of the processor's, an inspection.
#[derive(Clone, Copy)]
pub enum Act {
    Line { port: u32, signal: Signal },
    Processor { order: Order },
    Inspect,
}

// What is asked: a new unit, one thing of the unit that stands, or a sweep of n inspections.
#[derive(Clone, Copy)]
pub enum What {
    Setup,
    Do { act: Act },
    Sweep { n: u32 },
}

// A call. The setting of a setup stands beside what is asked, and every other call leaves it alone: the laws of the door (`call_number`, `call_one`, `glottal_call`) speak of calls with any setting beside them, so no variant takes it in.
#[derive(Clone, Copy)]
pub struct Call {
    pub what: What,
    pub setting: Setting,
}

// The call of a setup.
pub fn setting_up(s: Setting) -> Call
    ensures { result ≡ setting_up s }
{
    Call {
        what: What::Setup,
        setting: s,
    }
}

// Any other call.
pub fn asking(what: What) -> Call
    ensures { result ≡ asking what }
{
    Call {
        what,
        setting: no_setting(),
    }
}
