// Frames in the text of sessions (orders 32 to 35): written into and read from the cells that are lent, and the lines.
#![tactic(auto, unfolding(ground::specs::Choose::bit, crate::specs::Frames::write_lent, crate::specs::Frames::form_at))]

ghost use Rattle.std.specs.Prelude.{◌≡◌};
ghost use Rattle.driver.specs.Printed.{nothing};
ghost use Rattle.framing.specs.Read.{frame_of, read_frame};
ghost use Rattle.framing.specs.Write.{written_of, wrote};
ghost use Rattle.compared.specs.Frames.{part, write_lent, form_at};
ghost use Rattle.compared.specs.Said.{saying, written_said, frame_said, read_said, form_said, arrived_said};

use driver::digest::{number, of_cells, of_record};
use driver::host::{lent, lent_to};
use driver::say::{Said, and, nothing};
use framing::eds8::form_of;
use framing::form::Form;
use framing::read::{Frame, read_frame};
use framing::refusal::Refusal;
use framing::write::write_frame;
use unit::mux::{Mux, port_at};

// A frame of the character, written into the cells lent.
pub fn write_lent(f: Form, c: u8, cells: &mut [u8], from: u32, count: u32) -> Result<u32, Refusal>
    ensures { wrote (written_of result) cells.new ≡ write_lent f c cells.old from count }
{
    let a = lent(from, cells.len());
    let e = lent_to(from, count, cells.len());
    write_frame(f, c, &mut cells[a..e])
}

// A frame, read from the cells lent.
pub fn read_lent(f: Form, cells: &[u8], from: u32, count: u32) -> Result<Frame, Refusal>
    ensures { frame_of result ≡ read_frame f (part cells.now from count) }
{
    let a = lent(from, cells.len());
    let e = lent_to(from, count, cells.len());
    read_frame(f, &cells[a..e])
}

// The form that the port's control bits ask for.
pub fn form_at(u: Mux, port: u32) -> Form
    ensures { result ≡ form_at u port }
{
    form_of(port_at(u, port % 128).control)
}

// The line of order 32, of what the call left.
pub fn written_line(op: u32, w: Result<u32, Refusal>, cells: &[u8]) -> Said
    ensures { result ≡ saying nothing (written_said op (wrote (written_of w) cells.now)) }
{
    let s = and(nothing(), op as u64);
    let t = match w {
        Ok(used) => and(and(s, 0), used as u64),
        Err(e) => and(and(s, u8::from(e) as u64), 0),
    };
    and(t, of_cells(cells))
}

// What the lines of orders 33 and 35 begin with: the frame that was read, or zeros beside its refusal.
fn frame_told(op: u32, r: Result<Frame, Refusal>) -> Said
    ensures { result ≡ saying nothing (frame_said op (frame_of r)) }
{
    let s = and(nothing(), op as u64);
    match r {
        Ok(f) => and(
            and(and(and(s, 0), f.c as u64), number(f.parity)),
            number(f.brk),
        ),
        Err(e) => and(and(and(and(s, u8::from(e) as u64), 0), 0), 0),
    }
}

// The line of order 33.
pub fn read_line(op: u32, r: Result<Frame, Refusal>, cells: &[u8]) -> Said
    ensures { result ≡ saying nothing (read_said op (frame_of r) cells.now) }
{
    let used = r.map_or(0, |f| f.used);
    and(and(frame_told(op, r), used as u64), of_cells(cells))
}

// The line of order 34.
pub fn form_line(op: u32, control: u8) -> Said
    ensures { result ≡ saying nothing (form_said op control) }
{
    and(
        and(nothing(), op as u64),
        u32::from(form_of(control)) as u64,
    )
}

// The line of order 35, of what the arrival answered and left.
pub fn arrived_line(op: u32, r: Result<Frame, Refusal>, called: u8, u: Mux) -> Said
    ensures { result ≡ saying nothing (arrived_said op (frame_of r) called u) }
{
    and(and(frame_told(op, r), called as u64), of_record(u))
}
