// The door: the record of the unit is lent and changed in place; below it the record goes in and comes back by value.
#![tactic(auto)]

ghost use Rattle.std.specs.Prelude.{◌≡◌};
ghost use Rattle.unit.specs.Reply.{world, outcome, reply_of, replied_of};
ghost use Rattle.calls.specs.Calls.{step};
ghost use Rattle.door.specs.Door.{Meets};

use calls::call::Call;
use unit::mux::Mux;
use unit::refusal::Refusal;
use unit::reply::{Replied, Reply};

// One call on the lent record.
pub fn call(u: &mut Mux, mem: &mut [u16], list: &mut [u16], c: Call) -> Result<Reply, Refusal>
    ensures { Meets (world u.old mem.old) list.old c (reply_of result) u.new mem.new list.new }
{
    let s = calls::step(*u, mem, list, c)?;
    *u = s.mux;
    Ok(s.reply)
}

// One call by value, made through the door: whoever calls it needs no walk by hand.
pub fn call_by_value(u: Mux, mem: &mut [u16], list: &mut [u16], c: Call) -> Result<Replied, Refusal>
    ensures { outcome (replied_of u result) mem.new list.new ≡ step (world u mem.old) list.old c }
{
    let mut mux = u;
    let reply = call(&mut mux, mem, list, c)?;
    Ok(Replied { reply, mux })
}
