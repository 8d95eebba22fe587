// The rows of a picture, a character for each cell: where the line is at one level, and which bit each cell is of.
#![tactic(auto, unfolding(ground::specs::Choose::pick, crate::specs::Draw::stroke, crate::specs::Draw::letter_of, crate::specs::Draw::letter, crate::specs::Draw::drawn_at))]

ghost use Rattle.std.specs.Prelude.{◌≡◌};
ghost use Rattle.picture.specs.Draw.{stroke, letter_of, letter, drawn_at, drawn};

use framing::cells::frame_cell;
use framing::form::Form;
use std::array;

// The three rows: where the line is at mark, where it is at space, and which bit each cell is of.
#[derive(Clone, Copy)]
pub enum Row {
    Marks,
    Spaces,
    Letters,
}

// A stroke where the cell is at the level, else a blank.
fn stroke(cell: u8, level: u8) -> u8
    ensures { result ≡ stroke level cell }
{
    if cell == level { b'-' } else { b' ' }
}

// The letter of a baud: S start, a data bit's number, P parity, T stop.
fn letter_of(f: Form, j: u32) -> u8
    ensures { result ≡ letter_of f j }
{
    if j == 0 {
        return b'S';
    }
    if j <= f.data_bits() {
        return b'0' + (j - 1) as u8;
    }
    if j < f.first_stop() {
        return b'P';
    }
    b'T'
}

// The letter of a cell: that of its baud in the first half, a blank in the second.
fn letter(f: Form, i: u32) -> u8
    ensures { result ≡ letter f i }
{
    if i % 2 == 0 {
        letter_of(f, i / 2)
    } else {
        b' '
    }
}

// What a row has for a cell.
fn drawn_at(f: Form, c: u8, which: Row, i: u32) -> u8
    ensures { result ≡ drawn_at f c which i }
{
    match which {
        Row::Marks => stroke(frame_cell(f, c, i), 1),
        Row::Spaces => stroke(frame_cell(f, c, i), 0),
        Row::Letters => letter(f, i),
    }
}

// A whole row; past the frame it goes on with the stop.
pub fn drawn(f: Form, c: u8, which: Row) -> [u8; 24]
    ensures { result ≡ drawn f c which }
{
    array::from_fn(|i| drawn_at(f, c, which, i as u32))
}
