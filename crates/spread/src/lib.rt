// How far one wrong bit spreads: the coded bits that change with one bit of a block, whatever the
// block holds.
#![tactic(auto)]

ghost use Rattle.std.specs.Prelude.{◌≡◌, ℕ, ◌<◌, length};
ghost use Rattle.bits.specs.Pack.{bit_at};
ghost use Rattle.bits.specs.Basics.{tab};
ghost use Rattle.sizes.specs.Inner.{input_bits};
ghost use Rattle.sizes.specs.Sizes.{word_bits};
ghost use Rattle.convolution.specs.Code as code;
ghost use Rattle.answers.specs.Answer.{after};
ghost use Rattle.answers.specs.Inner.{answer_of};
ghost use Rattle.spread.specs.Spread.{spread_of, spread_says};
ghost use Rattle.spread.specs.Inner.{input_change, Marks, Changes, Codes};

use answers::{Fault, Refusal, ask};

// Questions 2, 8 and 27.
#[tactic(auto, unfolding(crate::specs::Spread::spread_says))]
fn spread_says(rate: u64, bit: u64, places_length: usize) -> Result<(), Refusal>
    ensures { answer_of result ≡ spread_says rate bit places_length }
{
    ask(rate < 3, Fault::BadRate)?;
    ask(places_length == sizes::WORD_BYTES, Fault::BadLength)?;
    ask(bit < sizes::info_bits(rate) as u64, Fault::BadBit)
}

// The input bits that change: the bit itself, and what changes in the check. Any block shows which.
#[tactic(auto, using(sizes::proofs::Laws::Rate::info_le, sizes::proofs::Laws::Rate::info_ge), unfolding(sizes::specs::Inner::input_bits))]
fn change_input(rate: u64, bit: usize, block: &mut [u8], input: &mut [u8])
    requires { Changes rate bit block.old input.old }
    ensures { (i : ℕ) → i < input_bits rate → bit_at input.new i ≡ input_change rate bit i }
{
    let k = sizes::info_bits(rate);
    let before = crc_check::check(block, k);
    bits::change::flip(block, bit);
    let after = crc_check::check(block, k);
    bits::change::flip(input, bit);
    convolution::ends::put_end(input, before ^ after);
}

// Step 4: the coded bits that change. `input` is for the input bits.
fn change_coded(rate: u64, bit: usize, block: &mut [u8], input: &mut [u8], coded: &mut [u8])
    requires { Codes rate bit block.old input.old coded.old }
    ensures { coded.new ≡ tab word_bits (code.encode rate (input_change rate bit)) }
{
    change_input(rate, bit, block, input);
    encoder::encode(rate, input, coded);
}

// The places, packed, for a rate, a bit and a length that are right.
fn fill(rate: u64, bit: usize, places: &mut [u8])
    requires { Marks rate bit (length places.old) }
    ensures { places.new ≡ spread_of rate bit }
{
    let mut block = [0u8; 1256];
    // Memory is fixed: room for the longest input, of which a slice is used.
    let mut room = [0u8; 1260];
    let mut coded = [0u8; 15120];
    let n = sizes::block_bytes(rate) + 4;
    change_coded(rate, bit, &mut block, &mut room[..n], &mut coded);
    bits::packing::pack(&coded, places);
}

// Marks the coded bits that change with a block bit.
#[tactic(auto, unfolding(crate::specs::Spread::spread_says))]
pub fn mark(rate: u64, bit: u64, places: &mut [u8]) -> Result<(), Refusal>
    ensures value { answer_of result ≡ spread_says rate bit (length places.old) }
    ensures places_after { places.new ≡ after (answer_of result) (spread_of rate bit) places.old }
{
    spread_says(rate, bit, places.len())?;
    fill(rate, bit as usize, places);
    Ok(())
}
