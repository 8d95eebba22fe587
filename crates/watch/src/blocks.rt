// What the host of the session writes into its control blocks.
#![tactic(auto, unfolding(crate::specs::Session::with_word, crate::specs::Session::control_word, crate::specs::Session::control_put, crate::specs::Session::input_asked, crate::specs::Session::input_put, crate::specs::Session::greeting_put, crate::specs::Session::output_put))]

ghost use Rattle.std.specs.Prelude.{◌≡◌, ◌<◌};
ghost use Rattle.ground.specs.Choose.{Below};
ghost use Rattle.watch.specs.Session.{three, place_of, with_word, control_word, control_put, input_asked, input_put, greeting_put, output_put};

use interrupt::Kind;
use unit::mux::{Setting, block_at};
use words::byte::{Memory, store};
use words::codes::{
    ASCII, CHARACTER, DEVICE_CONTROL, IBP, ICW, IN_ECHO, INMO, LIB, LOB, OBP, OCW, OUT_AUTO,
    OUT_CONTROL, OUTMO,
};
use words::field::put;

// A unit of that kind: three ports with blocks of 8 words from word 256 on, where either kind may have them, and that set of special codes.
pub fn three(kind: Kind, codes: [bool; 128]) -> Setting
    ensures { result ≡ three kind codes }
{
    Setting {
        kind,
        block: 8,
        ports: 3,
        base: 256,
        special: codes,
    }
}

// Where word k of port p's control block lies, whatever the kind and the set. Nothing says here that p is below 3, so its remainder is taken.
#[tactic(auto, using(crate::specs::laws::Session::fits), unfolding(crate::specs::Session::place_of))]
fn place_of(p: u32, k: usize) -> usize
    requires { k < 8 }
    ensures { Below 32768 (place_of p k) result }
{
    block_at(three(Kind::Eds8, [false; 128]), p % 3) + k
}

// A word of port p's control block written.
fn put_word(mem: &mut Memory, p: u32, k: usize, word: u16)
    requires { k < 8 }
    ensures { mem.new ≡ with_word p k word mem.old }
{
    let at = place_of(p, k);
    mem[at] = word;
}

// OCW for port control: Device Control 1, control bits octal 67 (8 bits, 9600 baud).
fn control_word() -> u16
    ensures { result ≡ control_word }
{
    let mode = put(0, OUTMO, OUT_CONTROL);
    put(put(mode, DEVICE_CONTROL, 1), CHARACTER, 0o67)
}

// Each port's length and speed, by port control.
pub fn put_control(mem: &mut Memory)
    ensures { mem.new ≡ control_put mem.old }
{
    put_word(mem, 0, OCW, control_word());
    put_word(mem, 1, OCW, control_word());
    put_word(mem, 2, OCW, control_word());
}

// Port 0 is asked for automatic input with echo, in 7-bit ASCII mode.
pub fn ask_input(mem: &mut Memory)
    ensures { mem.new ≡ input_asked mem.old }
{
    put_word(mem, 0, ICW, put(put(0, INMO, IN_ECHO), ASCII, 1));
}

// Port 0: input from byte 2001 to byte 2006, as long as the name with its glottal stop. Port 1: single mode, which is 0.
pub fn put_input(mem: &mut Memory)
    ensures { mem.new ≡ input_put mem.old }
{
    ask_input(mem);
    put_word(mem, 0, IBP, 2000);
    put_word(mem, 0, LIB, 2006);
    put_word(mem, 1, ICW, 0);
}

// Bytes 3000 to 3004: a word of greeting.
fn put_greeting(mem: &mut Memory)
    ensures { mem.new ≡ greeting_put mem.old }
{
    store(mem, 3000, b'a');
    store(mem, 3001, b'l');
    store(mem, 3002, b'o');
    store(mem, 3003, b'h');
    store(mem, 3004, b'a');
}

// Port 2: automatic output of bytes 3000 to 3004.
pub fn put_output(mem: &mut Memory)
    ensures { mem.new ≡ output_put mem.old }
{
    put_greeting(mem);
    put_word(mem, 2, OBP, 2999);
    put_word(mem, 2, LOB, 3004);
    put_word(mem, 2, OCW, put(0, OUTMO, OUT_AUTO));
}
