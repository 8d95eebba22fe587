// Byte pointers, for input and output alike: the step, and whether the buffer ends with it.
#![tactic(auto, unfolding(crate::specs::Pointer::step_ptr, crate::specs::Pointer::at_end))]

ghost use Rattle.std.specs.Prelude.{◌≡◌};
ghost use Rattle.words.specs.Pointer.{step_ptr, at_end};

// A byte pointer one place on; 65535 steps to 0.
pub fn step_ptr(p: u16) -> u16
    ensures { result ≡ step_ptr p }
{
    p.wrapping_add(1)
}

// Whether the buffer ends with the next byte. In 32 bits, where 65535 + 1 is past every end.
pub fn at_end(old: u16, end: u16) -> bool
    ensures { result ≡ at_end old end }
{
    old as u32 + 1 >= end as u32
}
