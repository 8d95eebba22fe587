// What a recording refuses.
ghost use Rattle.std.specs.Prelude.{◌≡◌};

// An unknown tag, another length than the tag's, bytes missing, no room in what is lent, a value that may not stand there; by their numbers (document 02, K8).
#[derive(Clone, Copy, PartialEq, Eq, Debug)]
pub enum Fault {
    UnknownTag = 13,
    WrongLength = 14,
    CutShort = 15,
    NoRoom = 18,
    BadValue = 21,
}

// Its number.
impl From<Fault> for u8 {
    ghost use Rattle.recording.specs.Fault.{number_of};

    ghost from_gives = { λ f n. n ≡ number_of f };

    fn from(fault: Fault) -> u8 {
        fault as u8
    }
}

// The fault of a number, or the number where none has it.
impl TryFrom<u8> for Fault {
    type Error = u8;

    ghost use Rattle.recording.specs.Fault.{Faults};

    ghost try_from_gives = { Faults };

    fn try_from(code: u8) -> Result<Fault, u8> {
        match code {
            13 => Ok(Fault::UnknownTag),
            14 => Ok(Fault::WrongLength),
            15 => Ok(Fault::CutShort),
            18 => Ok(Fault::NoRoom),
            21 => Ok(Fault::BadValue),
            _ => Err(code),
        }
    }
}

// What is at fault, and at which offset its tag stands.
#[derive(Clone, Copy, PartialEq, Eq, Debug)]
pub struct Refused {
    pub fault: Fault,
    pub at: usize,
}
