// Reading bytes into a lent list of events.
ghost use Rattle.std.specs.Prelude.{◌≡◌, ◌++◌, take, drop};
ghost use Rattle.recording.specs.Scan.{done_of, reading, read};

use recording::event::Event;
use recording::fault::Refused;
use recording::reading::{check, read_one};

// Reading: the bytes are checked, and then each event is put into its place.
pub fn read(bytes: &[u8], out: &mut [Event]) -> Result<usize, Refused>
    ensures { reading (done_of result) out.new ≡ read bytes.now out.old }
{
    let count = check(bytes, out.len())?;
    let mut at = 0;
    for place in &mut out[..count] {
        let one = read_one(bytes, at).unwrap();
        *place = one.event;
        at = one.next;
    }
    Ok(count)
}

// The same, into the first of eight events by value: whoever calls it needs no walk by hand.
pub fn read_eight(bytes: &[u8], out: [Event; 8], lent: usize) -> [Event; 8]
    ensures { result ≡ (read bytes.now (take lent out)).events ++ drop lent out }
{
    let mut es = out;
    let _ = read(bytes, &mut es[..lent.min(8)]);
    es
}
