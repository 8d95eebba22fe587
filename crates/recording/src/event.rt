// An event: a call of document 01 or a host write of one word, as a record that can stand in a list.
#![tactic(auto, unfolding(ground::specs::Choose::pick, ground::specs::Choose::first_of, crate::specs::Event::numbers_fit, crate::specs::Event::event_fits, crate::specs::Event::event_code))]

ghost use Rattle.std.specs.Prelude.{◌≡◌};
ghost use Rattle.recording.specs.Fault.{code_of};
ghost use Rattle.recording.specs.Layout.{layout_in};
ghost use Rattle.recording.specs.Event.{no_event, numbers_fit, none_marked, event_fits, event_code};

use crate::fault::Fault;
use crate::layout::{Layout, layout_of, most};
use crate::tag::Tag;

// The tag, the four numbers of its data in the table's order, and the special set. What the tag does not use is 0.
#[derive(Clone, Copy)]
pub struct Event {
    pub tag: u8,
    pub first: u32,
    pub second: u32,
    pub third: u32,
    pub fourth: u32,
    pub set: [bool; 128],
}

// All zeros: the tag of no event.
pub fn no_event() -> Event
    ensures { result ≡ no_event }
{
    Event {
        tag: 0,
        first: 0,
        second: 0,
        third: 0,
        fourth: 0,
        set: [false; 128],
    }
}

// Whether the numbers may stand in their parts.
pub fn numbers_fit(l: Layout, e: Event) -> bool
    ensures { result ≡ numbers_fit (layout_in l) e }
{
    let [one, two, three, four] = l.parts;
    let front = (e.first <= most(one)) & (e.second <= most(two));
    front & (e.third <= most(three)) & (e.fourth <= most(four))
}

// Whether a set has no code. Each is asked, also after one that is marked: so the loop goes by many at a time, and a set of none is what is asked most.
fn none_marked(set: [bool; 128]) -> bool
    ensures { result ≡ none_marked set }
{
    let mut none = true;
    for yes in &set {
        none = none & !*yes;
    }
    none
}

// Whether everything of an event may stand where it is.
fn event_fits(e: Event) -> bool
    ensures { result ≡ event_fits e }
{
    let l = layout_of(e.tag);
    numbers_fit(l, e) & (l.set | none_marked(e.set))
}

// What the writer finds at fault in an event: its tag, or a value.
pub fn check_event(e: Event) -> Result<(), Fault>
    ensures { code_of result ≡ event_code e }
{
    Tag::try_from(e.tag)?;
    if !event_fits(e) {
        return Err(Fault::BadValue);
    }
    Ok(())
}
