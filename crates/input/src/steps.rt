// What is done with a character: the six steps of document 01, Input, as a plan.
#![tactic(auto, unfolding(ground::specs::Choose::pick, ground::specs::Choose::bit, crate::specs::Input::ascii, crate::specs::Input::replaced_plan, crate::specs::Input::done_plan, crate::specs::Input::stored_plan, crate::specs::Input::input_plan))]

ghost use Rattle.std.specs.Prelude.{◌≡◌};
ghost use Rattle.ground.specs.Choose.{bit};
ghost use Rattle.input.specs.Plan.{planned, error_number};
ghost use Rattle.input.specs.Input.{replaced_plan, dropped_plan, done_plan, stored_plan, input_plan};

use crate::icw::{ErrorCode, done_icw, is_ascii, replaced_icw};
use crate::plan::Plan;
use words::ascii::stored_byte;
use words::codes::{INDONE, NOT_ECHOED_BY_ERROR, NOT_ECHOED_BY_SPECIAL};
use words::field::is_set;
use words::modes::{InputMode, input_mode};

// Step 1: no interrupt, for the host has had the one that came with INDONE.
fn replaced_plan(icw: u16, code: ErrorCode, c: u8) -> Plan
    ensures { result ≡ planned (replaced_plan icw (error_number code) c) }
{
    Plan {
        write: true,
        icw: replaced_icw(icw, code, c),
        ..Plan::default()
    }
}

// Step 2: ICW is not written either, so nothing of the character is left.
fn dropped_plan() -> Plan
    ensures { result ≡ planned dropped_plan }
{
    Plan::default()
}

// Steps 3 to 5: the host takes the character from ICW, so it is neither stored nor echoed.
fn done_plan(icw: u16, code: ErrorCode, mark: bool, c: u8) -> Plan
    ensures { result ≡ planned (done_plan icw (error_number code) (bit mark) c) }
{
    Plan {
        write: true,
        icw: done_icw(icw, code, mark, c),
        raised: true,
        ..Plan::default()
    }
}

// Step 6: the end of the buffer and an echo that finds the transmitter busy are done, for the host has to act on both.
fn stored_plan(icw: u16, c: u8, last: bool, echo: bool, empty: bool) -> Plan
    ensures { result ≡ planned (stored_plan icw c last echo empty) }
{
    let busy = echo && !empty;
    let done = last || busy;
    Plan {
        stored: Some(stored_byte(is_ascii(icw), c)),
        write: done,
        icw: done_icw(icw, ErrorCode::NoError, busy, c),
        echo: echo && empty,
        raised: done,
    }
}

// The six steps in order: each asks only what those before it left open.
pub fn input_plan(icw: u16, code: ErrorCode, c: u8, last: bool, special: bool, empty: bool) -> Plan
    ensures { result ≡ planned (input_plan icw (error_number code) c last special empty) }
{
    match input_mode(icw) {
        _ if is_set(icw, INDONE) => replaced_plan(icw, code, c),
        InputMode::NoInput => dropped_plan(),
        InputMode::Single => done_plan(icw, code, false, c),
        _ if code != ErrorCode::NoError => done_plan(icw, code, NOT_ECHOED_BY_ERROR, c),
        _ if is_ascii(icw) && special => done_plan(icw, code, NOT_ECHOED_BY_SPECIAL, c),
        InputMode::Auto => stored_plan(icw, c, last, false, empty),
        InputMode::Echo => stored_plan(icw, c, last, true, empty),
    }
}
