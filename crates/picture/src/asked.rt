// What a line asks for: data bits, parity, stop cells and a character.
#![tactic(auto, unfolding(ground::specs::Choose::pick, crate::specs::Asked::drawable, crate::specs::Asked::asked_for))]

ghost use Rattle.std.specs.Prelude.{◌≡◌};
ghost use Rattle.picture.specs.Asked.{Drawable, drawable, form_of, asked_of, asked_for};

use driver::read::Line;
use framing::form::Form;

// A frame to draw: its form and its character.
#[derive(Clone, Copy)]
pub struct Asked {
    pub form: Form,
    pub c: u8,
}

// Whether the first four numbers of the line are a form and a character.
fn drawable(n: [u32; 5], count: u32) -> bool
    ensures { result ≡ drawable n count }
{
    count >= 4 && matches!(n, [5..=8, 0..=2, 2..=4, 0..=255, _])
}

// The form by its parts' own numbers.
fn form_of(bits: u32, parity: u32, stops: u32) -> Form
    requires { Drawable bits parity stops }
    ensures { result ≡ form_of bits parity stops }
{
    Form::from(bits - 5 + 4 * parity + 12 * (stops - 2))
}

// What the line asks for, where it asks for a frame.
pub fn asked_for(l: Line) -> Option<Asked>
    ensures { asked_of result ≡ asked_for l }
{
    if !drawable(l.n, l.count) {
        return None;
    }
    let [bits, parity, stops, c, _] = l.n;
    Some(Asked {
        form: form_of(bits, parity, stops),
        c: c as u8,
    })
}
