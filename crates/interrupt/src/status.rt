// The merged status word of an EDS-8: what it becomes when a port is done.
#![tactic(auto, unfolding(ground::specs::Choose::pick, crate::specs::Status::busy, crate::specs::Status::more_marked, crate::specs::Status::service_marked, crate::specs::Status::status_after))]

ghost use Rattle.std.specs.Prelude.{◌≡◌, ◌<◌};
ghost use Rattle.interrupt.specs.Status.{busy, more_marked, service_marked, status_after};

use crate::Service;
use words::codes::{INPUT_DONE, MORE_THAN_ONE, OUTPUT_DONE, PORT_ADDRESS, STATUS_UNUSED};
use words::field::{is_set, put};

// Whether some port was done since START.
fn busy(w: u16) -> bool
    ensures { result ≡ busy w }
{
    is_set(w, INPUT_DONE) || is_set(w, OUTPUT_DONE)
}

// Bit 1, where some port was done since START.
fn more_marked(w: u16) -> u16
    ensures { result ≡ more_marked w }
{
    if busy(w) { put(w, MORE_THAN_ONE, 1) } else { w }
}

// Bit 2 for input, bit 3 for output.
pub fn service_marked(w: u16, s: Service) -> u16
    ensures { result ≡ service_marked s w }
{
    match s {
        Service::Input => put(w, INPUT_DONE, 1),
        Service::Output => put(w, OUTPUT_DONE, 1),
    }
}

// The status word after the port of that address was done.
pub fn status_after(w: u16, s: Service, address: u16) -> u16
    requires { address < 128 }
    ensures { result ≡ status_after s address w }
{
    let marked = service_marked(more_marked(w), s);
    put(put(marked, PORT_ADDRESS, address), STATUS_UNUSED, 0)
}
