// A bit field of a 16-bit word: read and written by division, so that its meaning is plain arithmetic.
#![tactic(auto, unfolding(ground::specs::Choose::bit, crate::specs::Field::get, crate::specs::Field::put))]

ghost use Rattle.std.specs.Prelude.{◌≡◌, ◌<◌, ◌==◌};
ghost use Rattle.ground.specs.Choose.{bit, Below};
ghost use Rattle.words.specs.Field.{Whole, get, put};

// The weight of the field's last bit, and how many values the field can have. `Whole` is a clause and no ghost field: every field is a constant, whose
// ghost field would be proved at each call too, and `bits` of specs/Field makes fields of any two bits, also such as are not whole.
#[derive(Clone, Copy)]
pub struct Field {
    pub unit: u16,
    pub span: u16,
}

// The field's value.
pub fn get(w: u16, f: Field) -> u16
    requires { Whole f }
    ensures { Below f.span (get f w) result }
{
    w / f.unit % f.span
}

// Whether a field of one bit is 1.
pub fn is_set(w: u16, f: Field) -> bool
    requires { Whole f }
    ensures { result ≡ (get f w == 1) }
{
    get(w, f) == 1
}

// The word with another value in the field, every other bit kept.
pub fn put(w: u16, f: Field, v: u16) -> u16
    requires whole { Whole f }
    requires v_lt_span { v < f.span }
    ensures { result ≡ put f v w }
{
    w - w / f.unit % f.span * f.unit + v * f.unit
}

// A bit's number: the library's conversion, under the definition's name and with its bound, which `put` asks for.
pub fn bit(b: bool) -> u16
    ensures { Below 2 (bit b) result }
{
    u16::from(b)
}
