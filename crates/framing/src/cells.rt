// What each cell of a frame is: a baud is two cells, the start first, then the data bits from the lowest on, the parity bit if there is one, the stop.
// The form and the character stay two parameters, as the clauses name them: a struct of both would write `self.form self.c` in each clause and be built at each call.
ghost use Rattle.std.specs.Prelude.{◌≡◌, ◌<◌};
ghost use Rattle.ground.specs.Choose.{Below};
ghost use Rattle.framing.specs.Cells.{bit_at, limited, sense, parity_bit, baud, frame_cell};

use crate::form::{Form, Parity};

// The character cut to the form's length.
#[tactic(auto, unfolding(crate::specs::Cells::limited))]
fn limited(f: Form, c: u8) -> u8
    ensures { result ≡ limited f c }
{
    let span = 1u16 << f.data_bits();
    (c as u16 % span) as u8
}

// What the ones of data and parity bit together leave by 2.
#[tactic(auto, unfolding(crate::specs::Cells::sense))]
fn sense(f: Form) -> u32
    ensures { Below 2 (sense f) result }
{
    match f.parity {
        Parity::Inhibited => 0,
        Parity::Odd => 1,
        Parity::Even => 0,
    }
}

// The parity bit, by a count of the ones in the character cut to its length.
#[tactic(auto, unfolding(crate::specs::Cells::parity_bit))]
pub fn parity_bit(f: Form, c: u8) -> u8
    ensures { Below 2 (parity_bit f c) result }
{
    let ones = u8::count_ones(limited(f, c));
    ((ones + sense(f)) % 2) as u8
}

// Data bit k, the lowest being 0.
#[tactic(auto, unfolding(crate::specs::Cells::bit_at))]
fn bit_at(c: u8, k: u32) -> u8
    requires { k < 8 }
    ensures { Below 2 (bit_at c k) result }
{
    (c >> k) % 2
}

// The level of a baud of the frame; past the frame the line stays at mark.
#[tactic(auto, unfolding(crate::specs::Cells::baud, ground::specs::Choose::pick))]
fn baud(f: Form, c: u8, j: u32) -> u8
    ensures { Below 2 (baud f c j) result }
{
    if j == 0 {
        return 0;
    }
    if j <= f.data_bits() {
        return bit_at(c, j - 1);
    }
    if j < f.first_stop() {
        return parity_bit(f, c);
    }
    1
}

// A cell of the frame: both halves of a baud have its level.
#[tactic(auto, unfolding(crate::specs::Cells::frame_cell))]
pub fn frame_cell(f: Form, c: u8, i: u32) -> u8
    ensures { Below 2 (frame_cell f c i) result }
{
    baud(f, c, i / 2)
}
