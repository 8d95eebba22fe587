// Writing a frame into a lent list of cells.
ghost use Rattle.std.specs.Prelude.{◌≡◌, ◌≤◌, length};
ghost use Rattle.ground.specs.laws.Arrays.{tab_to};
ghost use Rattle.framing.specs.Cells.{frame_cell};
ghost use Rattle.framing.specs.Write.{written_of, wrote, write_frame};

use crate::cells::frame_cell;
use crate::form::Form;
use crate::refusal::Refusal;

#[tactic(auto, using(ground::specs::laws::Arrays::tab_none, ground::specs::laws::Arrays::tab_one))]
// The frame put into the first cells, the others left as they were.
fn fill(f: Form, c: u8, cells: &mut [u8], n: u32)
    requires { n ≤ length cells.old }
    ensures { cells.new ≡ tab_to n (frame_cell f c) cells.old }
{
    for (i, cell) in cells[..n as usize].iter_mut().enumerate() {
        *cell = frame_cell(f, c, i as u32);
    }
}

// A frame of the character, written into the lent cells; and how many cells it has.
#[tactic(auto, unfolding(crate::specs::Write::write_frame, crate::specs::Write::write_code, ground::specs::Choose::first_of, ground::specs::Choose::pick))]
pub fn write_frame(f: Form, c: u8, cells: &mut [u8]) -> Result<u32, Refusal>
    ensures { wrote (written_of result) cells.new ≡ write_frame f c cells.old }
{
    let n = f.frame_cells();
    if cells.len() < n as usize {
        return Err(Refusal::NoRoom);
    }
    fill(f, c, cells, n);
    Ok(n)
}
