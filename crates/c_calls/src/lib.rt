// The calls for C, all in one place: each passes its arguments to the crate that does the work, and returns place × 256 + number; where it accepts,
// `mahyrei_run_find` the slot × 256, and `mahyrei_delay_write` and `mahyrei_delay_read` the symbol × 256.
// A slice is a pointer and a length. There is no `requires`: every input has its answer, and a refused call changes no byte.
#![tactic(auto)]

ghost use Rattle.std.specs.Prelude.{◌≡◌, ◌<◌, length, IfOk};
ghost use Rattle.answers.specs.Answer.{code_of};
ghost use Rattle.word.specs.Word as words;
ghost use Rattle.word.specs.Word.{word_read_says, word_write_says};
ghost use Rattle.word.specs.After.{word_after, block_after};
ghost use Rattle.pass.specs.Pass as passes;
ghost use Rattle.pass.specs.Pass.{pass_read_says, pass_write_says};
ghost use Rattle.spread.specs.Spread as spreads;
ghost use Rattle.header_convert.specs.Convert as trips;
ghost use Rattle.capture_search.specs.Search as searches;
ghost use Rattle.run.specs.Run as runs;
ghost use Rattle.run.specs.Run.{run_read_says, run_write_says};
ghost use Rattle.capture_cut.specs.Cut as cuts;
ghost use Rattle.fades.specs.Fades as fadings;
ghost use Rattle.delay.specs.Delay as delays;
ghost use Rattle.delay.specs.declared.Side.TheVariants.{Writing, Reading};
ghost use Rattle.uplink.specs.Uplink as uplinks;
ghost use Rattle.uplink.specs.Uplink.{uplink_read_says, uplink_write_says};
ghost use Rattle.rack.specs.Rack as racks;

use answers::Refusal;
use delay::Side;

// A packed block to its word (step 7, and then steps 2 to 6).
#[unsafe(no_mangle)]
pub extern "C" fn mahyrei_word_write(rate: u64, block: &[u8], word: &mut [u8]) -> u64
    ensures value { result ≡ code_of (word_write_says rate block.now (length word.old)) }
    ensures word_after { word.new ≡ word_after rate block.now word.old }
{
    answers::code(word_writer::write(rate, block, word))
}

// A word back to its block, if some block makes it.
#[unsafe(no_mangle)]
pub extern "C" fn mahyrei_word_read(rate: u64, word: &[u8], block: &mut [u8]) -> u64
    ensures value { result ≡ code_of (word_read_says rate word.now (length block.old)) }
    ensures block_after { block.new ≡ block_after rate word.now block.old }
{
    answers::code(word_reader::read(rate, word, block))
}

// Packed blocks, back to back, to their words.
#[unsafe(no_mangle)]
pub extern "C" fn mahyrei_pass_write(rate: u64, blocks: &[u8], words: &mut [u8]) -> u64
    ensures value { result ≡ code_of (pass_write_says rate blocks.now (length words.old)) }
    ensures words_after { words.new ≡ passes.words_after rate blocks.now words.old }
{
    answers::code(pass_writer::write(rate, blocks, words))
}

// Words, back to back, to their blocks, if some blocks make them.
#[unsafe(no_mangle)]
pub extern "C" fn mahyrei_pass_read(rate: u64, words: &[u8], blocks: &mut [u8]) -> u64
    ensures value { result ≡ code_of (pass_read_says rate words.now (length blocks.old)) }
    ensures blocks_after { blocks.new ≡ passes.blocks_after rate words.now blocks.old }
{
    answers::code(pass_reader::read(rate, words, blocks))
}

// The coded bits that change with one bit of a block, whatever the block: a 1 at each, packed.
#[unsafe(no_mangle)]
pub extern "C" fn mahyrei_bit_spread(rate: u64, bit: u64, places: &mut [u8]) -> u64
    ensures value { result ≡ code_of (spreads.spread_says rate bit (length places.old)) }
    ensures places_after { places.new ≡ spreads.places_after rate bit places.old }
{
    answers::code(spread::mark(rate, bit, places))
}

// Frames to slots (steps 1, 7, 2 to 6, and 8 to 10), each symbol sent as many times as the header says.
#[unsafe(no_mangle)]
pub extern "C" fn mahyrei_run_write(
    header: &[u8],
    marker: &[u8],
    frames: &[u8],
    slots: &mut [u8],
) -> u64
    ensures value { result ≡ code_of (run_write_says header.now marker.now frames.now (length slots.old)) }
    ensures slots_after { slots.new ≡ runs.slots_after header.now marker.now frames.now slots.old }
{
    answers::code(run_writer::write(header, marker, frames, slots))
}

// Slots back to frames, if the symbols that their copies pool to are those of some frames.
#[unsafe(no_mangle)]
pub extern "C" fn mahyrei_run_read(
    header: &[u8],
    marker: &[u8],
    slots: &[u8],
    frames: &mut [u8],
) -> u64
    ensures value { result ≡ code_of (run_read_says header.now marker.now slots.now (length frames.old)) }
    ensures frames_after { frames.new ≡ runs.frames_after header.now marker.now slots.now frames.old }
{
    answers::code(run_reader::read(header, marker, slots, frames))
}

// An archived header of eight bytes to one of ten with factor 1.
#[unsafe(no_mangle)]
pub extern "C" fn mahyrei_header_widen(eight: &[u8], ten: &mut [u8]) -> u64
    ensures value { result ≡ code_of (trips.widen_says eight.now (length ten.old)) }
    ensures ten_after { ten.new ≡ trips.ten_after eight.now ten.old }
{
    answers::code(header_convert::widen(eight, ten))
}

// And back, if the factor is 1.
#[unsafe(no_mangle)]
pub extern "C" fn mahyrei_header_narrow(ten: &[u8], eight: &mut [u8]) -> u64
    ensures value { result ≡ code_of (trips.narrow_says ten.now (length eight.old)) }
    ensures eight_after { eight.new ≡ trips.eight_after ten.now eight.old }
{
    answers::code(header_convert::narrow(ten, eight))
}

// The start of a capture: the earliest slot at which the whole marker begins is the place of an accepted answer.
#[unsafe(no_mangle)]
pub extern "C" fn mahyrei_run_find(header: &[u8], marker: &[u8], capture: &[u8]) -> u64
    ensures { result ≡ searches.find_code header.now marker.now capture.now }
{
    answers::code_with(capture_find::find(header, marker, capture, 0))
}

// The next start: the same of the slots from a given one on.
#[unsafe(no_mangle)]
pub extern "C" fn mahyrei_run_find_from(
    header: &[u8],
    marker: &[u8],
    capture: &[u8],
    from: u64,
) -> u64
    ensures { result ≡ searches.find_from_code header.now marker.now capture.now from }
{
    answers::code_with(capture_find::find(header, marker, capture, from))
}

// The slots of a run out of a capture, from a slot on, packed anew.
#[unsafe(no_mangle)]
pub extern "C" fn mahyrei_run_cut(header: &[u8], capture: &[u8], slot: u64, slots: &mut [u8]) -> u64
    ensures value { result ≡ code_of (cuts.cut_says header.now (length capture.now) slot (length slots.old)) }
    ensures slots_after { slots.new ≡ cuts.cut_after header.now capture.now slot slots.old }
{
    answers::code(capture_cut::cut_out(header, capture, slot, slots))
}

// For each word of a run, how many of its symbols are in the fades of a list. The lengths count numbers.
#[unsafe(no_mangle)]
pub extern "C" fn mahyrei_fades_count(header: &[u8], fades: &[u32], counts: &mut [u32]) -> u64
    ensures value { result ≡ code_of (fadings.fades_say header.now fades.now (length counts.old)) }
    ensures counts_after { counts.new ≡ fadings.counts_after header.now fades.now counts.old }
{
    answers::code(fades_count::count(header, fades, counts))
}

// What a step of the delay lines gives, as a number of C's width.
fn widened(given: Result<u8, Refusal>) -> Result<usize, Refusal>
    ensures same { result ≡ given }
    ensures byte { IfOk result (λ symbol. symbol < 256) }
{
    given.map(|symbol| symbol as usize)
}

// Step 9 a symbol at a time: takes a symbol, and gives the one whose turn it is, in the position of a refusal's place.
#[unsafe(no_mangle)]
pub extern "C" fn mahyrei_delay_write(header: &[u8], step: u64, symbol: u64, area: &mut [u8]) -> u64
    ensures value { result ≡ delays.step_code Writing header.now step symbol area.old }
    ensures area_after { area.new ≡ delays.area_after Writing header.now step symbol area.old }
{
    let given = delay_step::step(Side::Writing, header, step, symbol, area);
    answers::code_with(widened(given))
}

// The same on the reading side: fed by the writer, it gives what the writer took.
#[unsafe(no_mangle)]
pub extern "C" fn mahyrei_delay_read(header: &[u8], step: u64, symbol: u64, area: &mut [u8]) -> u64
    ensures value { result ≡ delays.step_code Reading header.now step symbol area.old }
    ensures area_after { area.new ≡ delays.area_after Reading header.now step symbol area.old }
{
    let given = delay_step::step(Side::Reading, header, step, symbol, area);
    answers::code_with(widened(given))
}

// Frames of 64 bits to command slots.
#[unsafe(no_mangle)]
pub extern "C" fn mahyrei_uplink_write(frames: &[u8], slots: &mut [u8]) -> u64
    ensures value { result ≡ code_of (uplink_write_says frames.now (length slots.old)) }
    ensures slots_after { slots.new ≡ uplinks.uplink_slots_after frames.now slots.old }
{
    answers::code(uplink_writer::write(frames, slots))
}

// Command slots back to frames, if some frames make them.
#[unsafe(no_mangle)]
pub extern "C" fn mahyrei_uplink_read(slots: &[u8], frames: &mut [u8]) -> u64
    ensures value { result ≡ code_of (uplink_read_says slots.now (length frames.old)) }
    ensures frames_after { frames.new ≡ uplinks.uplink_frames_after slots.now frames.old }
{
    answers::code(uplink_reader::read(slots, frames))
}

// A header into one of the caller's places in the rack, which is the area and nothing else. A loan of the place stays.
#[unsafe(no_mangle)]
pub extern "C" fn mahyrei_rack_load(
    area: &mut [u8],
    caller: u64,
    owner: u64,
    place: u64,
    header: &[u8],
) -> u64
    ensures value { result ≡ (racks.told_of area.old (racks.call_of caller owner place (racks.Load header.now))).code }
    ensures area_after { area.new ≡ racks.after_call area.old (racks.call_of caller owner place (racks.Load header.now)) }
{
    answers::code(rack_calls::load(area, caller, owner, place, header))
}

// The header of a place that is the caller's own or lent to it.
#[unsafe(no_mangle)]
pub extern "C" fn mahyrei_rack_read(
    area: &[u8],
    caller: u64,
    owner: u64,
    place: u64,
    header: &mut [u8],
) -> u64
    ensures value { result ≡ (racks.told_of area.now (racks.call_of caller owner place (racks.Read header.old))).code }
    ensures header_after { header.new ≡ (racks.told_of area.now (racks.call_of caller owner place (racks.Read header.old))).slice }
{
    answers::code(rack_calls::read(area, caller, owner, place, header))
}

// One of the caller's places emptied, and its loan ended.
#[unsafe(no_mangle)]
pub extern "C" fn mahyrei_rack_drop(area: &mut [u8], caller: u64, owner: u64, place: u64) -> u64
    ensures value { result ≡ (racks.told_of area.old (racks.call_of caller owner place racks.Drop)).code }
    ensures area_after { area.new ≡ racks.after_call area.old (racks.call_of caller owner place racks.Drop) }
{
    answers::code(rack_calls::drop(area, caller, owner, place))
}

// The reading of one of the caller's places lent to a mission, and to no other from then on.
#[unsafe(no_mangle)]
pub extern "C" fn mahyrei_rack_lend(
    area: &mut [u8],
    caller: u64,
    owner: u64,
    place: u64,
    to: u64,
) -> u64
    ensures value { result ≡ (racks.told_of area.old (racks.call_of caller owner place (racks.Lend to))).code }
    ensures area_after { area.new ≡ racks.after_call area.old (racks.call_of caller owner place (racks.Lend to)) }
{
    answers::code(rack_calls::lend(area, caller, owner, place, to))
}
