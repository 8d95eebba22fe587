// The form of a frame. Enums, so that no form has other than 5 to 8 data bits or fewer than two stop cells, and no call has to ask.
// By number, for programs that are given one: bits + 4 * parity + 12 * stops, 0 to 35. Every form has one, so there are no more than 36.
ghost use Rattle.std.specs.Prelude.{◌≡◌};
ghost use Rattle.ground.specs.Choose.{Below};
ghost use Rattle.framing.specs.Form.{data_bits, has_parity, stop_cells, first_stop, frame_cells};
ghost use Rattle.framing.specs.Number.{bits_numbered, parity_numbered, stops_numbered, form_numbered, number_of, form_number};

// The number of data bits.
#[derive(Clone, Copy, PartialEq, Eq, Debug)]
pub enum DataBits {
    Five,
    Six,
    Seven,
    Eight,
}

// The parity bit: none, or one that makes the ones odd or even.
#[derive(Clone, Copy, PartialEq, Eq, Debug)]
pub enum Parity {
    Inhibited = 0,
    Odd = 1,
    Even = 2,
}

// The stop, in bauds.
#[derive(Clone, Copy, PartialEq, Eq, Debug)]
pub enum Stops {
    One,
    OneAndHalf,
    Two,
}

// What a frame is made by, whatever machine asks for it.
#[derive(Clone, Copy, PartialEq, Eq, Debug)]
pub struct Form {
    pub bits: DataBits,
    pub parity: Parity,
    pub stops: Stops,
}

impl Form {
    // How many data bits there are.
    #[tactic(auto, unfolding(crate::specs::Form::data_bits))]
    pub fn data_bits(self) -> u32
        ensures { Below 9 (data_bits self) result }
    {
        match self.bits {
            DataBits::Five => 5,
            DataBits::Six => 6,
            DataBits::Seven => 7,
            DataBits::Eight => 8,
        }
    }

    // Whether there is a parity bit.
    #[tactic(auto, unfolding(crate::specs::Form::has_parity))]
    pub fn has_parity(self) -> bool
        ensures { result ≡ has_parity self }
    {
        self.parity != Parity::Inhibited
    }

    // How many cells the stop has.
    #[tactic(auto, unfolding(crate::specs::Form::stop_cells))]
    pub fn stop_cells(self) -> u32
        ensures { Below 5 (stop_cells self) result }
    {
        match self.stops {
            Stops::One => 2,
            Stops::OneAndHalf => 3,
            Stops::Two => 4,
        }
    }

    // The number of the first stop's baud: the start is baud 0.
    #[tactic(auto, unfolding(crate::specs::Form::first_stop, ground::specs::Choose::bit))]
    pub fn first_stop(self) -> u32
        ensures { Below 11 (first_stop self) result }
    {
        self.data_bits() + self.has_parity() as u32 + 1
    }

    // How many cells the whole frame has, every stop cell counted.
    #[tactic(auto, unfolding(crate::specs::Form::frame_cells))]
    pub fn frame_cells(self) -> u32
        ensures { Below 25 (frame_cells self) result }
    {
        2 * self.first_stop() + self.stop_cells()
    }
}

// The data bits of a number, as the EDS-8 codes them: 0 to 3 are 5 to 8.
impl From<u32> for DataBits {
    ghost from_gives = { λ x b. b ≡ bits_numbered x };

    #[tactic(auto, unfolding(crate::specs::Number::bits_numbered, ground::specs::Choose::pick))]
    fn from(x: u32) -> DataBits {
        match x {
            0 => DataBits::Five,
            1 => DataBits::Six,
            2 => DataBits::Seven,
            _ => DataBits::Eight,
        }
    }
}

// The parity of a number.
impl From<u32> for Parity {
    ghost from_gives = { λ x p. p ≡ parity_numbered x };

    #[tactic(auto, unfolding(crate::specs::Number::of_three, ground::specs::Choose::pick))]
    fn from(x: u32) -> Parity {
        match x {
            0 => Parity::Inhibited,
            1 => Parity::Odd,
            _ => Parity::Even,
        }
    }
}

// The number of a parity.
impl From<Parity> for u32 {
    ghost from_gives = { λ p x. x ≡ number_of p };

    fn from(p: Parity) -> u32 {
        p as u32
    }
}

// The stops of a number.
impl From<u32> for Stops {
    ghost from_gives = { λ x s. s ≡ stops_numbered x };

    #[tactic(auto, unfolding(crate::specs::Number::of_three, ground::specs::Choose::pick))]
    fn from(x: u32) -> Stops {
        match x {
            0 => Stops::One,
            1 => Stops::OneAndHalf,
            _ => Stops::Two,
        }
    }
}

// The form of a number; from 36 on they are the same forms again.
impl From<u32> for Form {
    ghost from_gives = { λ x f. f ≡ form_numbered x };

    #[tactic(auto, unfolding(crate::specs::Number::form_numbered))]
    fn from(x: u32) -> Form {
        Form {
            bits: DataBits::from(x % 4),
            parity: Parity::from(x / 4 % 3),
            stops: Stops::from(x / 12 % 3),
        }
    }
}

// The number of a form.
impl From<Form> for u32 {
    ghost from_gives = { λ f x. x ≡ form_number f };

    #[tactic(auto, using(crate::specs::laws::Form::data_bits_lem, crate::specs::laws::Form::stop_cells_lem), unfolding(crate::specs::Number::form_number, crate::specs::Number::parity_number))]
    fn from(f: Form) -> u32 {
        f.data_bits() - 5 + 4 * u32::from(f.parity) + 12 * (f.stop_cells() - 2)
    }
}
