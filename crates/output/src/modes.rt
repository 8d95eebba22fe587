// What is done with a port whose transmitter is empty: OUTDONE and the four modes of document 01, Output, as a plan.
#![tactic(auto, unfolding(ground::specs::Choose::pick, crate::specs::Output::auto_plan, crate::specs::Output::control_plan, crate::specs::Output::single_plan, crate::specs::Output::output_plan))]

ghost use Rattle.std.specs.Prelude.{◌≡◌};
ghost use Rattle.output.specs.Plan.{plan_of};
ghost use Rattle.output.specs.Output.{idle_plan, auto_plan, control_plan, single_plan, output_plan};

use crate::ocw::out_done;
use crate::plan::Plan;
use unit::mux::Port;
use words::codes::{CHARACTER, DEVICE_CONTROL, SPECIAL_REQUEST};
use words::field::{get, is_set};
use words::modes::{OutputMode, output_mode};

// OUTDONE set, or mode 00: the port keeps what it has, and its transmitter stays empty.
fn idle_plan(q: Port) -> Plan
    ensures { plan_of result ≡ idle_plan q }
{
    Plan {
        sent: None,
        done: false,
        control: q.control,
        devcontrol: q.devcontrol,
    }
}

// 01: done if the buffer ends with the byte, or bit 3 asks for an interrupt at a special one.
fn auto_plan(ocw: u16, q: Port, fetched: u8, last: bool, special: bool) -> Plan
    ensures { plan_of result ≡ auto_plan ocw q fetched last special }
{
    Plan {
        sent: Some(fetched),
        done: last || (is_set(ocw, SPECIAL_REQUEST) && special),
        ..idle_plan(q)
    }
}

// 10: the bits go to the port and not to the line, so the transmitter stays empty.
fn control_plan(ocw: u16) -> Plan
    ensures { plan_of result ≡ control_plan ocw }
{
    Plan {
        sent: None,
        done: true,
        control: get(ocw, CHARACTER) as u8,
        devcontrol: is_set(ocw, DEVICE_CONTROL),
    }
}

// 11: the byte stands in OCW itself, so each one is done.
fn single_plan(ocw: u16, q: Port) -> Plan
    ensures { plan_of result ≡ single_plan ocw q }
{
    Plan {
        sent: Some(get(ocw, CHARACTER) as u8),
        done: true,
        ..idle_plan(q)
    }
}

// OUTDONE first: until the host clears it no mode counts.
pub fn output_plan(ocw: u16, q: Port, fetched: u8, last: bool, special: bool) -> Plan
    ensures { plan_of result ≡ output_plan ocw q fetched last special }
{
    match output_mode(ocw) {
        _ if out_done(ocw) => idle_plan(q),
        OutputMode::NoOutput => idle_plan(q),
        OutputMode::Auto => auto_plan(ocw, q, fetched, last, special),
        OutputMode::Control => control_plan(ocw),
        OutputMode::Single => single_plan(ocw, q),
    }
}
