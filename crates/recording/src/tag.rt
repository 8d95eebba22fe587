// The tags that a recording's fields have.
ghost use Rattle.std.specs.Prelude.{◌≡◌};

use crate::fault::Fault;

// What happened, by its number: a call of document 01, or a host write of one word.
#[derive(Clone, Copy, PartialEq, Eq, Debug)]
pub enum Tag {
    Setup = 1,
    Arrival = 2,
    TransmitterEmpty = 3,
    DeviceStatus = 4,
    Sweep = 5,
    HostWrite = 6,
    Inspection = 7,
    Reset = 8,
    Iopls = 9,
    Start = 10,
    Doc = 11,
    Dob = 12,
    Dia = 13,
    Dias = 14,
    Tick = 15,
}

// Its number.
impl From<Tag> for u8 {
    ghost use Rattle.recording.specs.Tag.{tag_number};

    ghost from_gives = { λ t n. n ≡ tag_number t };

    fn from(tag: Tag) -> u8 {
        tag as u8
    }
}

// The tag of a number, if there is one.
impl TryFrom<u8> for Tag {
    type Error = Fault;

    ghost use Rattle.recording.specs.Tag.{Tags};

    ghost try_from_gives = { Tags };

    fn try_from(tag: u8) -> Result<Tag, Fault> {
        match tag {
            1 => Ok(Tag::Setup),
            2 => Ok(Tag::Arrival),
            3 => Ok(Tag::TransmitterEmpty),
            4 => Ok(Tag::DeviceStatus),
            5 => Ok(Tag::Sweep),
            6 => Ok(Tag::HostWrite),
            7 => Ok(Tag::Inspection),
            8 => Ok(Tag::Reset),
            9 => Ok(Tag::Iopls),
            10 => Ok(Tag::Start),
            11 => Ok(Tag::Doc),
            12 => Ok(Tag::Dob),
            13 => Ok(Tag::Dia),
            14 => Ok(Tag::Dias),
            15 => Ok(Tag::Tick),
            _ => Err(Fault::UnknownTag),
        }
    }
}
