// The questions of the four calls on the rack, in order.
#![tactic(auto)]

ghost use Rattle.std.specs.Prelude.{◌≡◌, not, [], ltb, eqb};
ghost use Rattle.answers.specs.Inner.{answer_of};
ghost use Rattle.bits.specs.Basics.{both};
ghost use Rattle.rack.specs.Rack as racks;
ghost use Rattle.rack.specs.Rack.{entry_at, call_of, says};
ghost use Rattle.rack_entries.specs.Inner.{OwnedPlace};

use answers::{Fault, Refusal, ask};

// 23: whether both are missions.
fn missions_right(caller: u64, owner: u64) -> bool
    ensures { result ≡ both (ltb caller 4) (ltb owner 4) }
{
    caller < 4 && owner < 4
}

// 23: whether a loan is to a mission other than the caller.
fn loan_right(caller: u64, to: u64) -> bool
    ensures { result ≡ both (ltb to 4) (not (eqb to caller)) }
{
    to < 4 && to != caller
}

// 25: whether the place is the caller's own and loaded.
#[tactic(auto, unfolding(rack::specs::Rack::loaded))]
fn own_loaded(area: &[u8], caller: u64, owner: u64, place: u64) -> bool
    requires { OwnedPlace owner place }
    ensures { result ≡ racks.allowed caller owner racks.Drop (entry_at area.now owner place) }
{
    rack_entries::status(area, owner, place) != 0 && caller == owner
}

// 25 of a read: whether the place is loaded, and the caller's own or lent to it.
#[tactic(auto, unfolding(rack::specs::Rack::loaded, rack::specs::Rack::lent_to))]
fn readable(area: &[u8], caller: u64, owner: u64, place: u64) -> bool
    requires { OwnedPlace owner place }
    ensures { result ≡ racks.allowed caller owner (racks.Read []) (entry_at area.now owner place) }
{
    let status = rack_entries::status(area, owner, place);
    status != 0 && (caller == owner || caller < 4 && status == 2 + (caller as u8))
}

// Of a load: 23, 24, 25, those of the header, 8.
pub fn load_says(
    area: &[u8],
    caller: u64,
    owner: u64,
    place: u64,
    header: &[u8],
) -> Result<(), Refusal>
    ensures { answer_of result ≡ says area.now (call_of caller owner place (racks.Load header.now)) }
{
    ask(missions_right(caller, owner), Fault::BadMission)?;
    ask(place < 4, Fault::BadPlace)?;
    ask(caller == owner, Fault::ClosedPlace)?;
    header_answers::header_says(header)?;
    ask(area.len() == 176, Fault::BadLength)
}

// Of a read: 23, 24, 25, 8.
pub fn read_says(
    area: &[u8],
    caller: u64,
    owner: u64,
    place: u64,
    header: &[u8],
) -> Result<(), Refusal>
    ensures { answer_of result ≡ says area.now (call_of caller owner place (racks.Read header.now)) }
{
    ask(missions_right(caller, owner), Fault::BadMission)?;
    ask(place < 4, Fault::BadPlace)?;
    ask(readable(area, caller, owner, place), Fault::ClosedPlace)?;
    ask(area.len() == 176, Fault::BadLength)?;
    ask(header.len() == 10, Fault::BadLength)
}

// Of a drop: 23, 24, 25, 8.
pub fn drop_says(area: &[u8], caller: u64, owner: u64, place: u64) -> Result<(), Refusal>
    ensures { answer_of result ≡ says area.now (call_of caller owner place racks.Drop) }
{
    ask(missions_right(caller, owner), Fault::BadMission)?;
    ask(place < 4, Fault::BadPlace)?;
    ask(own_loaded(area, caller, owner, place), Fault::ClosedPlace)?;
    ask(area.len() == 176, Fault::BadLength)
}

// Of a loan: 23 of the loan itself, and then what a drop is asked.
pub fn lend_says(area: &[u8], caller: u64, owner: u64, place: u64, to: u64) -> Result<(), Refusal>
    ensures { answer_of result ≡ says area.now (call_of caller owner place (racks.Lend to)) }
{
    ask(loan_right(caller, to), Fault::BadMission)?;
    drop_says(area, caller, owner, place)
}
