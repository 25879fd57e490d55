// The rack: four missions keep headers in it, in four places each, and lend each other the reading of them. The area is all that is kept.
#![tactic(auto)]

ghost use Rattle.std.specs.Prelude.{◌≡◌};
ghost use Rattle.answers.specs.Inner.{answer_of};
ghost use Rattle.rack.specs.Rack as racks;
ghost use Rattle.rack.specs.Rack.{entry_at, call_of, says, after_call, handed};

use answers::Refusal;

// The status of a place that was loaded: a loan stays.
fn filled(status: u8) -> u8
    ensures { result ≡ racks.filled status }
{
    if status == 0 {
        return 1;
    }
    status
}

// Loads a header into one of the caller's places, over what was there.
pub fn load(
    area: &mut [u8],
    caller: u64,
    owner: u64,
    place: u64,
    header: &[u8],
) -> Result<(), Refusal>
    ensures value { answer_of result ≡ says area.old (call_of caller owner place (racks.Load header.now)) }
    ensures area_after { area.new ≡ after_call area.old (call_of caller owner place (racks.Load header.now)) }
{
    rack_asked::load_says(area, caller, owner, place, header)?;
    let status = filled(rack_entries::status(area, owner, place));
    rack_entries::set_entry(area, owner, place, status, header);
    Ok(())
}

// Returns the header of a place that is the caller's or lent to it.
pub fn read(
    area: &[u8],
    caller: u64,
    owner: u64,
    place: u64,
    header: &mut [u8],
) -> Result<(), Refusal>
    ensures value { answer_of result ≡ says area.now (call_of caller owner place (racks.Read header.old)) }
    ensures header_after { header.new ≡ handed (racks.Read header.old) (answer_of result) (entry_at area.now owner place) }
{
    rack_asked::read_says(area, caller, owner, place, header)?;
    rack_entries::get_header(area, owner, place, header);
    Ok(())
}

// Empties a place of the caller's: nothing of the header stays, and no loan.
pub fn drop(area: &mut [u8], caller: u64, owner: u64, place: u64) -> Result<(), Refusal>
    ensures value { answer_of result ≡ says area.old (call_of caller owner place racks.Drop) }
    ensures area_after { area.new ≡ after_call area.old (call_of caller owner place racks.Drop) }
{
    rack_asked::drop_says(area, caller, owner, place)?;
    rack_entries::set_entry(area, owner, place, 0, &[0; 10]);
    Ok(())
}

// Lends reading of a place of the caller's to one other mission, and ends the loan before.
pub fn lend(area: &mut [u8], caller: u64, owner: u64, place: u64, to: u64) -> Result<(), Refusal>
    ensures value { answer_of result ≡ says area.old (call_of caller owner place (racks.Lend to)) }
    ensures area_after { area.new ≡ after_call area.old (call_of caller owner place (racks.Lend to)) }
{
    rack_asked::lend_says(area, caller, owner, place, to)?;
    rack_entries::set_status(area, owner, place, 2 + (to as u8));
    Ok(())
}
