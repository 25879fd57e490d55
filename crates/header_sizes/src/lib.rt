// What a header implies, each quantity with its letter. All of them fit in 36 bits.
#![tactic(auto)]

ghost use Rattle.std.specs.Prelude.{◌≡◌, ◌≤◌};
ghost use Rattle.header_sizes.specs.Quantities.{pulse_order, symbols_per_word, marked_bits, block_count, sequence_length, line_count, symbol_count, layout_of, sent_symbols, slots_per_symbol, slot_count, slot_bytes, frame_bytes, marker_bytes, interleaver_delay as Quantities·spread};
ghost use Rattle.header_sizes.specs.Inner.{Valid, Shaped};

use channel::Layout;
use header::Fields;

// M, the pulse order.
pub fn pulse_order(f: Fields) -> usize
    requires { Shaped f }
    ensures { result ≡ pulse_order f }
{
    1usize << f.bits
}

// S, the symbols of a word.
pub fn symbols_per_word(f: Fields) -> usize
    requires { Shaped f }
    ensures { result ≡ symbols_per_word f }
{
    sizes::WORD_BITS / f.bits
}

// N (N - 1) B, the places of step 9 that are not hit.
pub fn interleaver_delay(f: Fields) -> usize
    requires { Shaped f }
    ensures { result ≡ Quantities·spread f }
{
    f.rows * (f.rows - 1) * f.step
}

// The bits of the marked frames.
pub fn marked_bits(f: Fields) -> usize
    requires { Valid f }
    ensures { result ≡ marked_bits f }
{
    f.frames * (sizes::MARKER_BITS + 8 * f.size)
}

// C, the blocks that hold them.
pub fn block_count(f: Fields) -> usize
    requires { Valid f }
    ensures { result ≡ block_count f }
{
    let k = sizes::info_bits(f.rate);
    (marked_bits(f) + (k - 1)) / k
}

// The places of step 9.
pub fn sequence_length(f: Fields) -> usize
    requires { Valid f }
    ensures { result ≡ sequence_length f }
{
    block_count(f) * symbols_per_word(f) + interleaver_delay(f)
}

// R, the lines of S places that they are cut into.
pub fn line_count(f: Fields) -> usize
    requires { Valid f }
    ensures { result ≡ line_count f }
{
    sequence_length(f) / symbols_per_word(f)
}

// The symbols with markers.
pub fn symbol_count(f: Fields) -> usize
    requires { Valid f }
    ensures { result ≡ symbol_count f }
{
    line_count(f) * (symbols_per_word(f) + f.markers)
}

// The layout of the symbols.
pub fn layout_of(f: Fields) -> Layout
    requires { Valid f }
    ensures { result ≡ layout_of f }
{
    Layout {
        rows: f.rows,
        step: f.step,
        symbols: symbols_per_word(f),
        words: block_count(f),
        markers: f.markers,
        lines: line_count(f),
    }
}

// The slots of a symbol: M, and M/4 guard slots.
pub fn slots_per_symbol(f: Fields) -> usize
    requires { Shaped f }
    ensures { result ≡ slots_per_symbol f }
{
    let m = pulse_order(f);
    m + m / 4
}

// The symbols as they are sent: each as many times as the factor says.
pub fn sent_symbols(f: Fields) -> usize
    requires { Valid f × (f.copies ≤ 32) }
    ensures { result ≡ sent_symbols f }
{
    symbol_count(f) * f.copies
}

// Their slots.
pub fn slot_count(f: Fields) -> usize
    requires { Valid f × (f.copies ≤ 32) }
    ensures { result ≡ slot_count f }
{
    sent_symbols(f) * slots_per_symbol(f)
}

// The bytes of the packed slots.
pub fn slot_bytes(f: Fields) -> usize
    requires { Valid f × (f.copies ≤ 32) }
    ensures { result ≡ slot_bytes f }
{
    (slot_count(f) + 7) / 8
}

// The bytes of all frames.
pub fn frame_bytes(f: Fields) -> usize
    requires { Valid f }
    ensures { result ≡ frame_bytes f }
{
    f.frames * f.size
}

// The bytes of the marker symbols.
pub fn marker_bytes(f: Fields) -> usize
    ensures { result ≡ marker_bytes f }
{
    f.markers
}
