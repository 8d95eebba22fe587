// A lent list that reaches to the end of a frame, and what its cells say.
ghost use Rattle.std.specs.Prelude.{◌≡◌, ◌+◌, ◌-◌, ◌*◌, ◌<◌, ◌≤◌, length};
ghost use Rattle.ground.specs.Choose.{Below};
ghost use Rattle.framing.specs.Form.{data_bits, first_stop, frame_cells};
ghost use Rattle.framing.specs.Read.{level, level_at, starts_well, alike, whole_to, data_of, parity_mark, break_mark, frame_of, frame_read};

use crate::cells::parity_bit;
use crate::form::Form;
use crate::read::Frame;

// The list, and the form that it is read by.
#[derive(Clone, Copy)]
pub(crate) struct Heard<'a> {
    pub(crate) form: Form,
    pub(crate) cells: &'a [u8],
    ghost whole: { frame_cells form ≤ length cells.now },
}

// The level of a cell: 0 is space, anything else mark.
#[tactic(auto, unfolding(crate::specs::Read::level, ground::specs::Choose::pick))]
fn level(x: u8) -> u8
    ensures { Below 2 (level x) result }
{
    (x != 0) as u8
}

impl Heard<'_> {
    // The level of a cell of the list.
    #[tactic(auto, unfolding(crate::specs::Read::level_at))]
    fn level_at(&self, i: usize) -> u8
        requires { i < length self.now.cells.now }
        ensures { Below 2 (level_at self.now.cells.now i) result }
    {
        level(self.cells[i])
    }

    // Whether the two halves of a baud have one level.
    #[tactic(auto, using(crate::specs::laws::Form::frame_cells_lem), unfolding(crate::specs::Read::alike))]
    fn alike(&self, j: usize) -> bool
        requires { j < first_stop self.now.form }
        ensures { result ≡ alike (level_at self.now.cells.now) j }
    {
        self.level_at(2 * j) == self.level_at(2 * j + 1)
    }

    // Whether the start is two space cells.
    #[tactic(auto, using(crate::proofs::Sizes::frame_cells_least), unfolding(crate::specs::Read::starts_well))]
    pub(crate) fn starts_well(&self) -> bool
        ensures { result ≡ starts_well (level_at self.now.cells.now) }
    {
        self.level_at(0) == 0 && self.level_at(1) == 0
    }

    // Whether each baud between the start and the first stop has one level in both halves.
    pub(crate) fn is_whole(&self) -> bool
        ensures { result ≡ whole_to (level_at self.now.cells.now) (first_stop self.now.form - 1) }
    {
        (1..self.form.first_stop() as usize).all(|j| self.alike(j))
    }

    // The data bits put together: bit k is baud k + 1.
    #[tactic(auto, using(crate::proofs::Sizes::data_fit, crate::proofs::Bits::data_fits, crate::proofs::Bits::data_more), unfolding(crate::specs::Read::data_of))]
    fn data(&self) -> u8
        ensures { result ≡ data_of (level_at self.now.cells.now) (data_bits self.now.form) }
    {
        let mut data = 0;
        for k in 0..self.form.data_bits() {
            data += self.level_at(2 * k as usize + 2) << k;
        }
        data
    }

    // The parity mark: there is a parity bit, and it is not the one that the data ask for.
    #[tactic(auto, using(crate::proofs::Sizes::parity_fits), unfolding(crate::specs::Read::parity_mark))]
    fn parity_mark(&self, c: u8) -> bool
        ensures { result ≡ parity_mark self.now.form (level_at self.now.cells.now) c }
    {
        let at = self.form.data_bits() as usize + 1;
        self.form.has_parity() && self.level_at(2 * at) != parity_bit(self.form, c)
    }

    // The break mark: a space in either half of the first stop. Later stop cells are not looked at.
    #[tactic(auto, using(crate::specs::laws::Form::frame_cells_lem), unfolding(crate::specs::Read::break_mark))]
    fn break_mark(&self) -> bool
        ensures { result ≡ break_mark self.now.form (level_at self.now.cells.now) }
    {
        let at = self.form.first_stop() as usize;
        self.level_at(2 * at) == 0 || self.level_at(2 * at + 1) == 0
    }

    // What a frame that is not refused gives.
    #[tactic(auto, unfolding(crate::specs::Read::frame_read))]
    pub(crate) fn frame(&self) -> Frame
        ensures { frame_of (Ok result) ≡ frame_read self.now.form (level_at self.now.cells.now) }
    {
        let c = self.data();
        Frame {
            c,
            parity: self.parity_mark(c),
            brk: self.break_mark(),
            used: self.form.frame_cells(),
        }
    }
}
