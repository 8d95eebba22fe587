// Reading a frame from a lent list of cells.
ghost use Rattle.std.specs.Prelude.{◌≡◌};
ghost use Rattle.framing.specs.Read.{frame_of, read_frame, looked};

use crate::form::Form;
use crate::heard::Heard;
use crate::refusal::Refusal;

// A frame that was read: the character and its two marks, and how many cells the frame has.
#[derive(Clone, Copy, PartialEq, Eq, Debug)]
pub struct Frame {
    pub c: u8,
    pub parity: bool,
    pub brk: bool,
    pub used: u32,
}

// A frame, read from the lent cells, which stay as they were. Refused are first a list that is too short, then the start, then the halves.
#[tactic(auto, unfolding(crate::specs::Read::read_frame, crate::specs::Read::read_code, ground::specs::Choose::first_of, ground::specs::Choose::pick))]
pub fn read_frame(f: Form, cells: &[u8]) -> Result<Frame, Refusal>
    ensures { looked (frame_of result) cells.now ≡ looked (read_frame f cells.now) cells.now }
{
    if cells.len() < f.frame_cells() as usize {
        return Err(Refusal::TooShort);
    }
    let heard = Heard { form: f, cells };
    if !heard.starts_well() {
        return Err(Refusal::NoFrame);
    }
    if !heard.is_whole() {
        return Err(Refusal::NoFrame);
    }
    Ok(heard.frame())
}
