// The word writer: a packed information block to its word of 1,890 bytes, by step 7 and then steps 2 to 6.
#![tactic(auto)]

ghost use Rattle.std.specs.Prelude.{◌≡◌, ℕ, ◌+◌, ◌<◌, length, get_or};
ghost use Rattle.bits.specs.Pack.{bit_at, bytes_of};
ghost use Rattle.bits.specs.Basics.{tab};
ghost use Rattle.sizes.specs.Sizes.{info_bits, word_bits, word_bytes};
ghost use Rattle.sizes.specs.Inner.{input_bits};
ghost use Rattle.crc.specs.Check.{checked};
ghost use Rattle.convolution.specs.Code.{terminated};
ghost use Rattle.word.specs.Word.{input_of, coded_of, shuffled, word_of, word_write_says};
ghost use Rattle.answers.specs.Answer.{after};
ghost use Rattle.answers.specs.Inner.{answer_of};
ghost use Rattle.word.specs.Inner.{WriteAccepted};
ghost use Rattle.word_writer.specs.Inner.{Checks, Inputs, Codes, Shuffles};

use answers::{Fault, Refusal, ask};

// Questions 2 and 8.
#[tactic(auto, using(word::proofs::Laws::Answers::write_asks))]
fn write_says(rate: u64, block: &[u8], word_length: usize) -> Result<(), Refusal>
    ensures { answer_of result ≡ word_write_says rate block.now word_length }
{
    ask(rate < 3, Fault::BadRate)?;
    ask(
        block.len() == sizes::block_bytes(rate) && word_length == sizes::WORD_BYTES,
        Fault::BadLength,
    )
}

// Steps 2 and 3: the check of the first k bits after them, and two zeros.
fn add_check(rate: u64, input: &mut [u8])
    requires { Checks rate input.old }
    ensures { (i : ℕ) → i < input_bits rate → bit_at input.new i ≡ terminated (info_bits rate + 32) (checked (info_bits rate) (bit_at input.old)) i }
{
    let check = crc_check::check(input, sizes::info_bits(rate));
    convolution::ends::put_end(input, check);
}

// Step 7, and then steps 2 and 3: the input bits, packed.
fn take_in(rate: u64, block: &[u8], input: &mut [u8])
    requires { Inputs rate block.now input.old }
    ensures { (i : ℕ) → i < input_bits rate → bit_at input.new i ≡ input_of rate block.now i }
{
    let n = block.len();
    input[..n].copy_from_slice(block);
    randomizer::randomize(input);
    add_check(rate, input);
}

// Step 7, and then steps 2 to 4: the coded bits. `input` is a buffer for the input bits.
fn encode(rate: u64, block: &[u8], input: &mut [u8], coded: &mut [u8])
    requires { Codes rate block.now input.old coded.old }
    ensures { coded.new ≡ tab word_bits (coded_of rate block.now) }
{
    take_in(rate, block, input);
    encoder::encode(rate, input, coded);
}

// Steps 5 and 6.
fn shuffle(coded: &[u8], word: &mut [u8])
    requires { Shuffles coded.now word.old }
    ensures { word.new ≡ bytes_of word_bytes (shuffled (λ j. get_or coded.now j 0)) }
{
    interleaver_writer::interleave(coded, word);
    accumulator::accumulate(word);
}

// The word of a block that passed the questions.
fn code(rate: u64, block: &[u8], word: &mut [u8])
    requires { WriteAccepted rate block.now (length word.old) }
    ensures { word.new ≡ word_of rate block.now }
{
    // Memory is fixed: room for the longest input, of which a slice is used.
    let mut room = [0u8; 1260];
    let mut coded = [0u8; 15120];
    let n = block.len() + 4;
    encode(rate, block, &mut room[..n], &mut coded);
    shuffle(&coded, word);
}

// Writes the word of a packed block.
#[tactic(auto, using(word::proofs::Laws::Answers::write_accepted))]
pub fn write(rate: u64, block: &[u8], word: &mut [u8]) -> Result<(), Refusal>
    ensures value { answer_of result ≡ word_write_says rate block.now (length word.old) }
    ensures word_after { word.new ≡ after (answer_of result) (word_of rate block.now) word.old }
{
    write_says(rate, block, word.len())?;
    code(rate, block, word);
    Ok(())
}
