// Special and ordinary codes: the rule of 1974, the set of that rule, and the one test of a unit, by its set, for input, for output and for what is printed of them.
#![tactic(auto, unfolding(crate::specs::Special::is_special, crate::specs::Special::set1974, crate::specs::Special::special_in, crate::specs::Special::with_code))]

ghost use Rattle.std.specs.Prelude.{◌≡◌};
ghost use Rattle.words.specs.Special.{is_special, set1974, special_in, with_code, dictionary_set};

// The rule of 1974: octal 0 to 37 or 174 to 177 in the low seven bits.
pub fn is_special(c: u8) -> bool
    ensures { result ≡ is_special c }
{
    // The top bit is no part of a code: 7-bit ASCII mode sets it in what it stores.
    let low = c % 128;
    matches!(low, 0..=31 | 124..=127)
}

// The set of that rule, which a unit has whose school chose none.
pub fn set_1974() -> [bool; 128]
    ensures { result ≡ set1974 }
{
    std::array::from_fn(|c| is_special(c as u8))
}

// Whether a code is special: the set's word on its low seven bits, for a set has none for the top bit.
pub fn special_in(codes: [bool; 128], c: u8) -> bool
    ensures { result ≡ special_in codes c }
{
    let low = (c % 128) as usize;
    codes[low]
}

// The set with another word on one code, so that a school can begin with the 1974 set.
pub fn with_code(mut codes: [bool; 128], c: u8, special: bool) -> [bool; 128]
    ensures { result ≡ with_code codes c special }
{
    codes[(c % 128) as usize] = special;
    codes
}

// The set that the dictionary wants: the glottal stop is ordinary, so that it stays with its word.
pub fn dictionary_set() -> [bool; 128]
    ensures { result ≡ dictionary_set }
{
    with_code(set_1974(), 0o174, false)
}
