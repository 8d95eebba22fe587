// What OCW says as it was read, and the word that is written last.
#![tactic(auto, unfolding(ground::specs::Choose::pick, crate::specs::Output::out_done, crate::specs::Output::is_auto, crate::specs::Output::differs, crate::specs::Output::status_bits, crate::specs::Output::becomes_changed, crate::specs::Output::written_ocw))]

ghost use Rattle.std.specs.Prelude.{◌≡◌, not, ◌&&◌, ◌||◌};
ghost use Rattle.ground.specs.Choose.{pick, Below};
ghost use Rattle.words.specs.Field.{get};
ghost use Rattle.words.specs.Codes.{STATUS-CHANGED};
ghost use Rattle.output.specs.Output.{out_done, is_auto, differs, status_bits, becomes_changed, written_ocw};

use words::codes::{DEVICE_STATUS, OUTDONE, PREVIOUS_STATUS, STATUS_CHANGED, UNUSED};
use words::field::{bit, get, is_set, put};
use words::modes::{OutputMode, output_mode};

// One reading of OUTDONE, for the plan, the pointer and the word written.
pub fn out_done(ocw: u16) -> bool
    ensures { result ≡ out_done ocw }
{
    is_set(ocw, OUTDONE)
}

// The one case in which OBP is stepped and written: OUTDONE clear and mode 01.
pub fn is_auto(ocw: u16) -> bool
    ensures { result ≡ is_auto ocw }
{
    !out_done(ocw) && output_mode(ocw) == OutputMode::Auto
}

// The Device Status line against bit 4 as read: what OCW last had of it.
fn differs(ocw: u16, line: bool) -> bool
    ensures { result ≡ differs ocw line }
{
    get(ocw, DEVICE_STATUS) != bit(line)
}

// Bit 7 as it is written: a change sets it, and only the host clears it.
fn changed_bit(ocw: u16, line: bool) -> u16
    ensures { Below 2 (pick (differs ocw line) 1 (get STATUS-CHANGED ocw)) result }
{
    if differs(ocw, line) {
        return 1;
    }
    get(ocw, STATUS_CHANGED)
}

// Bits 4 and 5 are the line now and as OCW last had it, so the host sees both sides of a change.
fn status_bits(ocw: u16, line: bool) -> u16
    ensures { result ≡ status_bits ocw line }
{
    let status = put(ocw, DEVICE_STATUS, bit(line));
    let previous = put(status, PREVIOUS_STATUS, get(ocw, DEVICE_STATUS));
    put(previous, STATUS_CHANGED, changed_bit(ocw, line))
}

// Bit 7 from 0 to 1: a change of the line that the host has not been told of.
fn becomes_changed(ocw: u16, line: bool) -> bool
    ensures { result ≡ becomes_changed ocw line }
{
    get(ocw, STATUS_CHANGED) == 0 && differs(ocw, line)
}

// OUTDONE as read shuts out a second interrupt; else the plan or a change of the line makes it done.
pub fn is_done(ocw: u16, line: bool, planned: bool) -> bool
    ensures { result ≡ not (out_done ocw) && (planned || becomes_changed ocw line) }
{
    !out_done(ocw) && (planned || becomes_changed(ocw, line))
}

// OUTDONE already set: only the status bits, for the rest still waits for the host. Else bit 6 is 0 and bit 0 says done.
pub fn written_ocw(ocw: u16, line: bool, done: bool) -> u16
    ensures { result ≡ written_ocw ocw line done }
{
    let status = status_bits(ocw, line);
    if out_done(ocw) {
        return status;
    }
    let unused = put(status, UNUSED, 0);
    put(unused, OUTDONE, bit(done))
}
