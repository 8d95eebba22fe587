// The digests of FORMAT.md: of words, of cells, of the record, and of the window on a control block.
ghost use Rattle.std.specs.Prelude.{◌≡◌, ◌<◌, ℕ, get_or};
ghost use mathlib.Core.List.{foldl};
ghost use Rattle.ground.specs.Choose.{bit, Below};
ghost use Rattle.driver.specs.Digest.{taken, digest, kind_number, code_taken, port_taken, scalars, kind_scalars, record_digest, window_digest};

use interrupt::Kind;
use unit::mux::{Mux, Port};

// The digest h with one more number.
pub fn taken(h: u64, x: u64) -> u64
    requires h_bound { h < 2147483647 }
    requires x_bound { x < 4294967296 }
    ensures { Below 2147483647 (taken h x) result }
{
    (h * 65599 + x) % 2147483647
}

// A bool as a digest counts it.
// It stays beside u64::from: its clause has the specs' word, `bit`, which every line and digest that counts a bool cites.
pub fn number(b: bool) -> u64
    ensures { Below 2 (bit b) result }
{
    u64::from(b)
}

// A digest so far, below its modulus.
#[derive(Clone, Copy)]
struct Digest {
    value: u64,
    ghost below: { value < 2147483647 },
}

// What a digest takes: a number, or what has numbers.
trait Digested: Copy {
    ghost takes: { ℕ → Self → ℕ };

    fn onto(self, d: Digest) -> Digest
        ensures { result.value ≡ takes d.value self };
}

// How a digest begins, and what is taken into it.
impl Digest {
    // The digest of nothing.
    fn new() -> Digest
        ensures { result.value ≡ 1 }
    {
        Digest { value: 1 }
    }

    // The digest with one thing more.
    fn and<T: Digested>(self, x: T) -> Digest
        ensures { result.value ≡ T.takes self.value x }
    {
        x.onto(self)
    }

    // The digest with things in their order.
    fn all<T: Digested>(self, xs: &[T]) -> Digest
        ensures { result.value ≡ foldl T.takes self.value xs.now }
    {
        let mut d = self;
        for x in xs {
            d = d.and(*x);
        }
        d
    }
}

// A number.
impl Digested for u32 {
    ghost takes = { taken };

    fn onto(self, d: Digest) -> Digest {
        Digest {
            value: taken(d.value, u64::from(self)),
        }
    }
}

// A word of the memory or of the list.
impl Digested for u16 {
    ghost takes = { taken };

    fn onto(self, d: Digest) -> Digest {
        d.and(u32::from(self))
    }
}

// A cell, or a byte of the record.
impl Digested for u8 {
    ghost takes = { taken };

    fn onto(self, d: Digest) -> Digest {
        d.and(u32::from(self))
    }
}

// A bool: 1 for true, 0 for false.
impl Digested for bool {
    ghost takes = { code_taken };

    fn onto(self, d: Digest) -> Digest {
        Digest {
            value: taken(d.value, number(self)),
        }
    }
}

// A kind of unit: 0 EDS-8, 1 Mighty Mux.
impl Digested for Kind {
    ghost takes = { λ h k. taken h (kind_number k) };

    fn onto(self, d: Digest) -> Digest {
        d.and(self as u32)
    }
}

// The nine numbers of a port.
impl Digested for Port {
    ghost takes = { port_taken };

    fn onto(self, d: Digest) -> Digest {
        let c = self.ch;
        d.and(self.held)
            .and(c.byte)
            .and(c.parity)
            .and(c.brk)
            .and(c.overload)
            .and(self.empty)
            .and(self.control)
            .and(self.devcontrol)
            .and(self.devstatus)
    }
}

// The digest of words, in the order of their addresses.
pub fn of_words(words: &[u16]) -> u64
    ensures { Below 2147483647 (digest words.now) result }
{
    Digest::new().all(words).value
}

// The digest of cells, in their order.
pub fn of_cells(cells: &[u8]) -> u64
    ensures { Below 2147483647 (digest cells.now) result }
{
    Digest::new().all(cells).value
}

// The digest of the first eleven numbers of the record.
fn of_scalars(u: Mux) -> Digest
    ensures { result.value ≡ foldl taken (digest (scalars u)) (kind_scalars u.setting.kind u.irq) }
{
    let s = u.setting;
    let i = u.irq;
    Digest::new()
        .and(s.block)
        .and(s.ports)
        .and(s.base)
        .and(u.pos)
        .and(u.runs)
        .and(u.clock)
        .and(i.flag)
        .and(i.status)
        .and(s.kind)
        .and(i.lost)
        .and(i.fill)
}

// The digest of the whole record.
pub fn of_record(u: Mux) -> u64
    ensures { Below 2147483647 (record_digest u) result }
{
    let s = u.setting;
    let i = u.irq;
    of_scalars(u)
        .all(&i.stack)
        .all(&s.special)
        .all(&u.port)
        .value
}

// The word at an address, 0 past the end.
pub fn word_at(mem: &[u16], at: usize) -> u16
    ensures { result ≡ get_or mem.now at 0 }
{
    mem.get(at).copied().unwrap_or(0)
}

// The digest of the eight words from an address on and of the two words that its IBP and OBP point into.
pub fn of_window(mem: &[u16], look: u32) -> u64
    ensures { Below 2147483647 (window_digest mem.now look) result }
{
    let at = look as usize;
    let ibp = word_at(mem, at + 4);
    let obp = word_at(mem, at + 5);
    Digest::new()
        .and(word_at(mem, at))
        .and(word_at(mem, at + 1))
        .and(word_at(mem, at + 2))
        .and(word_at(mem, at + 3))
        .and(ibp)
        .and(obp)
        .and(word_at(mem, at + 6))
        .and(word_at(mem, at + 7))
        .and(word_at(mem, (ibp / 2) as usize))
        .and(word_at(mem, (obp / 2) as usize))
        .value
}
