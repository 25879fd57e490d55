// The entries of the rack's area: a status byte and a header each.
#![tactic(auto)]

ghost use Rattle.std.specs.Prelude.{◌≡◌, ◌∷◌, ◌+◌, ◌*◌, ◌≤◌, ◌<◌, length};
ghost use Rattle.rack.specs.Rack.{entry_number, entry_at, put, status_in, header_in};
ghost use Rattle.rack_entries.specs.Inner.{OwnedPlace};

// The byte at which the entry of a place starts.
fn start(owner: u64, place: u64) -> usize
    requires { OwnedPlace owner place }
    ensures { result ≡ 11 * entry_number owner place }
{
    11 * (4 * (owner as usize) + (place as usize))
}

// The status of a place, 0 where the area does not reach that far.
pub fn status(area: &[u8], owner: u64, place: u64) -> u8
    requires { OwnedPlace owner place }
    ensures { result ≡ status_in (entry_at area.now owner place) }
{
    let at = start(owner, place);
    if at < area.len() { area[at] } else { 0 }
}

// Sets another status, with the header as it was.
pub fn set_status(area: &mut [u8], owner: u64, place: u64, status: u8)
    requires { OwnedPlace owner place × (length area.old ≡ 176) }
    ensures { area.new ≡ put area.old owner place (status ∷ header_in (entry_at area.old owner place)) }
{
    area[start(owner, place)] = status;
}

// Sets another entry.
pub fn set_entry(area: &mut [u8], owner: u64, place: u64, status: u8, header: &[u8])
    requires { OwnedPlace owner place × (length area.old ≡ 176) × (length header.now ≡ 10) }
    ensures { area.new ≡ put area.old owner place (status ∷ header.now) }
{
    let at = start(owner, place);
    area[at] = status;
    // A copy of so many bytes, whatever the lengths, so that it takes no call of memmove.
    area[at + 1..at + 11].copy_from_slice(&header[..10]);
}

// The header of a place.
pub fn get_header(area: &[u8], owner: u64, place: u64, header: &mut [u8])
    requires { OwnedPlace owner place × (length area.now ≡ 176) × (length header.old ≡ 10) }
    ensures { header.new ≡ header_in (entry_at area.now owner place) }
{
    let at = start(owner, place) + 1;
    header.copy_from_slice(&area[at..at + 10]);
}
