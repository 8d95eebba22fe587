// The layout of each tag's data: the one table. docs/RECORDING.md has it drawn.
#![tactic(auto, unfolding(ground::specs::Choose::pick, crate::specs::Layout::width_of, crate::specs::Layout::size, crate::specs::Layout::most, crate::specs::Layout::layout_of, crate::specs::Layout::data_length))]

ghost use Rattle.std.specs.Prelude.{◌≡◌, false};
ghost use Rattle.ground.specs.Choose.{Below};
ghost use Rattle.recording.specs.Layout.{width_in, part_of, layout_in, width_of, size, most, layout_of, numbers_length, data_length, field_length};

use crate::tag::Tag;

// How many bytes a part takes.
#[derive(Clone, Copy, PartialEq, Eq, Debug)]
pub enum Width {
    One = 1,
    Two = 2,
    Four = 4,
}

// What may stand in a part: a yes or no, a kind of unit, a byte, a word's address, a word, any number.
#[derive(Clone, Copy, PartialEq, Eq, Debug)]
pub enum Part {
    YesNo,
    Kind,
    Byte,
    Address,
    Word,
    Number,
}

// The parts of a tag's data in their order, none where it uses fewer than four, and whether the special set follows them.
#[derive(Clone, Copy)]
pub struct Layout {
    pub parts: [Option<Part>; 4],
    pub set: bool,
}

// The width of a part; one that is not used has none.
pub fn width_of(p: Option<Part>) -> Option<Width>
    ensures { width_in result ≡ width_of (part_of p) }
{
    match p? {
        Part::YesNo | Part::Kind | Part::Byte => Some(Width::One),
        Part::Address | Part::Word => Some(Width::Two),
        Part::Number => Some(Width::Four),
    }
}

// A width in bytes; none is no byte.
pub fn size(w: Option<Width>) -> usize
    ensures { Below 5 (size (width_in w)) result }
{
    w.map_or(0, |w| w as usize)
}

// The greatest number that may stand in a part; one that is not used is 0.
pub fn most(p: Option<Part>) -> u32
    ensures { result ≡ most (part_of p) }
{
    match p {
        None => 0,
        Some(Part::YesNo) => 1,
        Some(Part::Kind) => 1,
        Some(Part::Byte) => 255,
        Some(Part::Address) => 32767,
        Some(Part::Word) => 65535,
        Some(Part::Number) => 4294967295,
    }
}

// Parts with no set behind them.
fn bare(parts: [Option<Part>; 4]) -> Layout
    ensures { result ≡ record { parts = parts; set = false } }
{
    Layout { parts, set: false }
}

// The table; the other tags have no data.
pub fn layout_of(tag: u8) -> Layout
    ensures { layout_in result ≡ layout_of tag }
{
    match Tag::try_from(tag) {
        Ok(Tag::Setup) => Layout {
            parts: [
                Some(Part::Kind),
                Some(Part::Number),
                Some(Part::Number),
                Some(Part::Number),
            ],
            set: true,
        },
        Ok(Tag::Arrival) => bare([
            Some(Part::Number),
            Some(Part::Byte),
            Some(Part::YesNo),
            Some(Part::YesNo),
        ]),
        Ok(Tag::TransmitterEmpty) => bare([Some(Part::Number), None, None, None]),
        Ok(Tag::DeviceStatus) => bare([Some(Part::Number), Some(Part::YesNo), None, None]),
        Ok(Tag::Sweep) => bare([Some(Part::Number), Some(Part::Number), None, None]),
        Ok(Tag::HostWrite) => bare([Some(Part::Address), Some(Part::Word), None, None]),
        _ => bare([None; 4]),
    }
}

// How many bytes a part takes; one that is not used takes none.
pub fn part_size(p: Option<Part>) -> usize
    ensures { Below 5 (size (width_of (part_of p))) result }
{
    size(width_of(p))
}

// How many bytes the four numbers take.
pub fn numbers_length(l: Layout) -> usize
    ensures { Below 17 (numbers_length (layout_in l)) result }
{
    let [one, two, three, four] = l.parts;
    part_size(one) + part_size(two) + part_size(three) + part_size(four)
}

// How many bytes the data has: the numbers, and the set.
pub fn data_length(l: Layout) -> usize
    ensures { Below 145 (data_length (layout_in l)) result }
{
    numbers_length(l) + if l.set { 128 } else { 0 }
}

// How many bytes a field of that tag has: the tag, the length and the data.
pub fn field_length(tag: u8) -> usize
    ensures { Below 148 (field_length tag) result }
{
    3 + data_length(layout_of(tag))
}
