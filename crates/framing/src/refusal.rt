// Why a frame is not written or not read.
ghost use Rattle.std.specs.Prelude.{◌≡◌};
ghost use Rattle.framing.specs.Refusal.{number_of};

// What is refused, by its number.
#[derive(Clone, Copy, PartialEq, Eq, Debug)]
pub enum Refusal {
    // The list is too short for the frame that is written.
    NoRoom = 18,
    // The list is shorter than the whole frame that is read.
    TooShort = 19,
    // The start is not two space cells, or the halves of a data or parity bit differ.
    NoFrame = 20,
}

// The number of a refusal.
impl From<Refusal> for u8 {
    ghost from_gives = { λ r n. n ≡ number_of r };

    fn from(r: Refusal) -> u8 {
        r as u8
    }
}
