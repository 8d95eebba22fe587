// The line that a driver prints: numbers with one space between them, a newline at the end.
#![tactic(auto, unfolding(ground::specs::Choose::pick, crate::specs::Printed::and))]

ghost use Rattle.std.specs.Prelude.{◌≡◌, [], ◌∷◌, ◌++◌, ◌+◌, ◌≤◌, ◌<◌, ltb, length, take};
ghost use Rattle.ground.specs.Choose.{pick};
ghost use Rattle.driver.specs.Printed.{nothing, and, decimal, line_of, line, Put};

// The numbers to print, and how many they are.
// It stays an array with its length: specs/Printed names both, a Vec can run out of memory where `and` cannot fail, and an ArrayVec is not Copy.
#[derive(Clone, Copy)]
pub struct Said {
    pub n: [u64; 10],
    pub count: u32,
}

// Nothing to print yet.
pub fn nothing() -> Said
    ensures { result ≡ nothing }
{
    Said {
        n: [0; 10],
        count: 0,
    }
}

// One more number to print; an eleventh is dropped.
pub fn and(s: Said, x: u64) -> Said
    ensures { result ≡ and s x }
{
    let mut r = s;
    if s.count < 10 {
        r.n[s.count as usize] = x;
        r.count += 1;
    }
    r
}

// The digits and one byte after them put into the text from a place on; the place after them.
fn put(digits: &[u8], last: u8, text: &mut [u8], at: usize) -> usize
    requires { at + length digits.now < length text.old }
    ensures { Put (digits.now ++ (last ∷ [])) text.old at result text.new }
{
    let end = at + digits.len();
    text[at..end].copy_from_slice(digits);
    text[end] = last;
    end + 1
}

// One number and one byte after it put into the text from a place on; the place after them. No number has more than twenty digits.
fn spell(x: u64, last: u8, text: &mut [u8], at: usize) -> usize
    requires { at + 21 ≤ length text.old }
    ensures { Put (decimal x ++ (last ∷ [])) text.old at result text.new }
{
    let mut digits = [0u8; 20];
    let k = io::decimal(x, &mut digits);
    put(&digits[..k], last, text, at)
}

// The byte after number i of so many: a newline after the last, else a space.
fn mark(i: usize, most: usize) -> u8
    requires { i < most }
    ensures { result ≡ pick (ltb (i + 1) most) 32 10 }
{
    if i + 1 < most { b' ' } else { b'\n' }
}

// The numbers of a line, at most ten, put into the text; how many bytes they take.
fn spell_all(text: &mut [u8], n: [u64; 10], count: u32) -> usize
    requires { 210 ≤ length text.old }
    ensures { Put (line_of (take count n)) text.old 0 result text.new }
{
    let most = (count as usize).min(10);
    let mut at = 0;
    for (i, x) in n[..most].iter().enumerate() {
        at = spell(*x, mark(i, most), text, at);
    }
    at
}

// The line put into the text; how many bytes it takes.
fn line_in(text: &mut [u8], s: Said) -> usize
    requires { 210 ≤ length text.old }
    ensures { Put (line s) text.old 0 result text.new }
{
    spell_all(text, s.n, s.count)
}

// Prints the line.
// It stays without std's printing, which needs a handle: a type that asks for one asks more of its callers.
pub fn print(s: Said) {
    let mut text = io::buffer();
    let end = line_in(&mut text, s);
    io::write_all(1, &text[..end]);
}
