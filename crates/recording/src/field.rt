// One field: an event put into bytes, and taken from bytes.
#![tactic(auto, unfolding(ground::specs::Choose::pick, ground::specs::Choose::first_of, crate::specs::Layout::width_of, crate::specs::Layout::size, crate::specs::Field::bytes_of, crate::specs::Field::number_in, crate::specs::Field::event_in, crate::specs::Field::read_fits, crate::specs::Field::field_code))]

ghost use Rattle.std.specs.Prelude.{◌≡◌, ◌+◌, ◌<◌, ◌≤◌, true, length, drop, slice_index};
ghost use Rattle.ground.specs.Choose.{Below, first_of};
ghost use Rattle.recording.specs.Fault.{code_of};
ghost use Rattle.recording.specs.Layout.{Two, wide, part_of, layout_in, width_of, size, numbers_length, field_length};
ghost use Rattle.recording.specs.Field.{bytes_of, marks_of, numbers_of, head_of, field, Put, number_in, marks_in, marks, tag_in, past_numbers, set_at, event_of, event_in, read_fits, data_rows, field_code};

use crate::event::{Event, numbers_fit};
use crate::fault::Fault;
use crate::layout::{
    Layout, Part, Width, data_length, layout_of, numbers_length, part_size, size, width_of,
};
use crate::tag::Tag;
use std::array;

// The low bytes of a number, as many as the width says, the highest of them first, put into the list from a place on; the place after them.
fn put_number(out: &mut [u8], at: usize, w: Width, n: u32) -> usize
    requires { at + size (wide w) ≤ length out.old }
    ensures { Put (bytes_of (wide w) n) at out.old result out.new }
{
    let bytes = n.to_be_bytes();
    let end = at + size(Some(w));
    out[at..end].copy_from_slice(&bytes[4 - size(Some(w))..]);
    end
}

// The number in the width of its part, if there is one.
fn put_part(out: &mut [u8], at: usize, p: Option<Part>, n: u32) -> usize
    requires { at + size (width_of (part_of p)) ≤ length out.old }
    ensures { Put (bytes_of (width_of (part_of p)) n) at out.old result out.new }
{
    match width_of(p) {
        None => at,
        Some(w) => put_number(out, at, w, n),
    }
}

// A yes or no for each code, put into the list from a place on; the place after them.
fn put_marks(out: &mut [u8], at: usize, set: [bool; 128]) -> usize
    requires { at + 128 ≤ length out.old }
    ensures { Put (marks_of true set) at out.old result out.new }
{
    // Place by place: the array's map goes one by one through a list of its own.
    for k in 0..128 {
        out[at + k] = u8::from(set[k]);
    }
    at + 128
}

// The four numbers of an event put into the list from a place on; the place after them.
fn put_numbers(out: &mut [u8], at: usize, l: Layout, e: Event) -> usize
    requires { at + numbers_length (layout_in l) ≤ length out.old }
    ensures { Put (numbers_of (layout_in l) e) at out.old result out.new }
{
    let [one, two, three, four] = l.parts;
    let a = put_part(out, at, one, e.first);
    let b = put_part(out, a, two, e.second);
    let c = put_part(out, b, three, e.third);
    put_part(out, c, four, e.fourth)
}

// The tag and the length put into the list from a place on; the place after them.
fn put_head(out: &mut [u8], at: usize, tag: u8, n: usize) -> usize
    requires at_in_bounds { at + 3 ≤ length out.old }
    requires n_bound { n < 145 }
    ensures { Put (head_of tag n) at out.old result out.new }
{
    out[at] = tag;
    put_number(out, at + 1, Width::Two, n as u32)
}

// An event's field put into the list from a place on; the place after it.
pub fn put_field(out: &mut [u8], at: usize, e: Event) -> usize
    requires { at + field_length e.tag ≤ length out.old }
    ensures { Put (field e) at out.old result out.new }
{
    let l = layout_of(e.tag);
    let head = put_head(out, at, e.tag, data_length(l));
    let end = put_numbers(out, head, l, e);
    if l.set {
        return put_marks(out, end, e.set);
    }
    end
}

// A byte, and 0 past the end.
fn byte_at(bytes: &[u8], at: usize) -> u8
    ensures { result ≡ slice_index bytes.now at }
{
    bytes.get(at).copied().unwrap_or(0)
}

// The tag, and 0 where there is none.
pub fn tag_in(bytes: &[u8]) -> u8
    ensures { result ≡ tag_in bytes.now }
{
    byte_at(bytes, 0)
}

// The number that two bytes make.
fn pair_at(bytes: &[u8], at: usize) -> u16
    requires { at < 256 }
    ensures { result ≡ number_in Two (drop at bytes.now) }
{
    u16::from_be_bytes([byte_at(bytes, at), byte_at(bytes, at + 1)])
}

// The number that so many bytes make, high byte first.
fn number_at(bytes: &[u8], at: usize, w: Width) -> u32
    requires { at < 128 }
    ensures { result ≡ number_in (wide w) (drop at bytes.now) }
{
    match w {
        Width::One => u32::from(byte_at(bytes, at)),
        Width::Two => u32::from(pair_at(bytes, at)),
        Width::Four => u32::from_be_bytes([
            byte_at(bytes, at),
            byte_at(bytes, at + 1),
            byte_at(bytes, at + 2),
            byte_at(bytes, at + 3),
        ]),
    }
}

// The number in the width of its part, and 0 where there is none.
fn part_at(bytes: &[u8], at: usize, p: Option<Part>) -> u32
    requires { at < 128 }
    ensures { result ≡ number_in (width_of (part_of p)) (drop at bytes.now) }
{
    match width_of(p) {
        None => 0,
        Some(w) => number_at(bytes, at, w),
    }
}

// The set that 128 bytes make.
fn marks_at(bytes: &[u8], at: usize) -> [bool; 128]
    requires { at < 128 }
    ensures { result ≡ marks_in true (drop at bytes.now) }
{
    array::from_fn(|k| byte_at(bytes, at + k) == 1)
}

// Whether each of 128 bytes is 0 or 1.
fn marks_fit(bytes: &[u8], at: usize) -> bool
    requires { at < 128 }
    ensures { result ≡ marks 128 (drop at bytes.now) }
{
    bytes.iter().skip(at).take(128).all(|b| *b <= 1)
}

// Where the set stands: after the numbers.
fn set_at(l: Layout) -> usize
    ensures { Below 20 (set_at (layout_in l)) result }
{
    3 + numbers_length(l)
}

// The special set of a field, where the tag has one.
fn set_in(bytes: &[u8], l: Layout) -> [bool; 128]
    ensures { result ≡ marks_in l.set (past_numbers (layout_in l) (drop 3 bytes.now)) }
{
    if l.set {
        return marks_at(bytes, set_at(l));
    }
    [false; 128]
}

// The event that a field's data makes in a layout.
fn event_by(bytes: &[u8], tag: u8, l: Layout) -> Event
    ensures { result ≡ event_of tag (layout_in l) (drop 3 bytes.now) }
{
    let [one, two, three, four] = l.parts;
    let b = 3 + part_size(one);
    let c = b + part_size(two);
    let d = c + part_size(three);
    Event {
        tag,
        first: part_at(bytes, 3, one),
        second: part_at(bytes, b, two),
        third: part_at(bytes, c, three),
        fourth: part_at(bytes, d, four),
        set: set_in(bytes, l),
    }
}

// The event of the field at the front of some bytes.
pub fn event_in(bytes: &[u8]) -> Event
    ensures { result ≡ event_in bytes.now }
{
    let tag = tag_in(bytes);
    event_by(bytes, tag, layout_of(tag))
}

// Whether every value of a field may stand where it is.
fn read_fits(bytes: &[u8]) -> bool
    ensures { result ≡ read_fits bytes.now }
{
    let l = layout_of(tag_in(bytes));
    let fit = numbers_fit(l, event_in(bytes));
    if l.set {
        return fit & marks_fit(bytes, set_at(l));
    }
    fit
}

// What is at fault in the data of a field whose tag is known, whose length bytes are there and right.
fn check_data(bytes: &[u8], n: usize) -> Result<(), Fault>
    ensures { code_of result ≡ first_of (data_rows bytes.now n) }
{
    if bytes.len() < n {
        return Err(Fault::CutShort);
    }
    if !read_fits(bytes) {
        return Err(Fault::BadValue);
    }
    Ok(())
}

// What is at fault in the field at the front of some bytes.
pub fn check_field(bytes: &[u8]) -> Result<(), Fault>
    ensures { code_of result ≡ field_code bytes.now }
{
    let tag = tag_in(bytes);
    Tag::try_from(tag)?;
    if bytes.len() < 3 {
        return Err(Fault::CutShort);
    }
    let n = data_length(layout_of(tag));
    if usize::from(pair_at(bytes, 1)) != n {
        return Err(Fault::WrongLength);
    }
    check_data(bytes, 3 + n)
}
