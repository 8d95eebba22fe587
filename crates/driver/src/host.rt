// What the host does to its memory, its list and its cells (orders 17, 18, 20, 21 and 23), and how much of each it lends.
#![tactic(auto, unfolding(crate::specs::Host::next, crate::specs::Host::span))]

ghost use Rattle.std.specs.Prelude.{map, ◌+◌, ◌/◌, ◌%◌, min, ◌≡◌, length, set};
ghost use Rattle.std.proofs.lemmas.List.Edits.{sets};
ghost use Rattle.driver.specs.Host.{next, series, span, bytes_of};

// The smaller of two counts: so many places of `most` are lent.
pub fn lent(asked: u32, most: usize) -> usize
    ensures { result ≡ min asked most }
{
    most.min(asked as usize)
}

// Where a part of so many places, from a place on, ends: there are `most` of them.
pub fn lent_to(from: u32, asked: u32, most: usize) -> usize
    ensures { result ≡ min (from + asked) most }
{
    most.min(from as usize + asked as usize)
}

// One place written; past the end nothing.
fn put<T: Copy>(list: &mut [T], at: usize, x: T)
    ensures { list.new ≡ set list.old at x }
{
    if at < list.len() {
        list[at] = x;
    }
}

// Order 20: one word written; past the end nothing.
pub fn write(mem: &mut [u16], at: u32, word: u32)
    ensures { mem.new ≡ set mem.old at (word % 65536) }
{
    put(mem, at as usize, (word % 65536) as u16);
}

// The next number of order 21's series.
fn next(x: u32) -> u32
    ensures { result ≡ next x }
{
    (u64::from(x) * 48271 % 2147483647) as u32
}

// Order 21: the whole memory filled from a seed.
pub fn fill(mem: &mut [u16], seed: u32)
    ensures { mem.new ≡ series 65536 (length mem.old) seed }
{
    let mut x = seed;
    mem.fill_with(move || {
        x = next(x);
        (x / 16 % 65536) as u16
    });
}

// Every place set to the value (order 23, and a new session).
pub fn set_all(list: &mut [u16], value: u16)
    ensures { list.new ≡ map (λ _. value) list.old }
{
    list.fill(value);
}

// Order 17: the four bytes of a word, the highest first; past the end nothing.
pub fn put_bytes(cells: &mut [u8], place: u32, word: u32)
    ensures { cells.new ≡ sets cells.old place (bytes_of word) }
{
    let at = place as usize;
    let [a, b, c, d] = word.to_be_bytes();
    put(cells, at, a);
    put(cells, at + 1, b);
    put(cells, at + 2, c);
    put(cells, at + 3, d);
}

// What order 18 makes of a number of the series; any m counts from 1 to 256.
fn cell_of(x: u32, m: u32) -> u8
    ensures { result ≡ x / 16 % span m }
{
    let span = (u64::from(m) + 255) % 256 + 1;
    (u64::from(x) / 16 % span) as u8
}

// Order 18: all the cells filled from a seed.
pub fn fill_cells(cells: &mut [u8], seed: u32, m: u32)
    ensures { cells.new ≡ series (span m) (length cells.old) seed }
{
    let mut x = seed;
    cells.fill_with(move || {
        x = next(x);
        cell_of(x, m)
    });
}
