// The word reader: a word to its packed information block, by steps 6 to 2 and then step 7 undone, and the questions on the way.
#![tactic(auto)]

ghost use Rattle.std.specs.Prelude.{◌≡◌, ◌<◌, length, get_or};
ghost use Rattle.bits.specs.Pack.{bit_at};
ghost use Rattle.bits.specs.Basics.{tab};
ghost use Rattle.sizes.specs.Sizes.{word_bits};
ghost use Rattle.convolution.specs.Code as code;
ghost use Rattle.randomizer.specs.Randomizer.{randomize};
ghost use Rattle.answers.specs.Answer.{after};
ghost use Rattle.answers.specs.Inner.{answer_of};
ghost use Rattle.word.specs.Word.{coded_in, input_in, block_in, packed_block, judged, word_read_says};
ghost use Rattle.word_reader.specs.Inner.{Undoes, Reads, Gives, Words};

use answers::{Fault, Refusal, ask};

// The coded bits taken back out: steps 6 and 5 undone.
fn take_out(word: &[u8], work: &mut [u8], coded: &mut [u8])
    requires { Undoes word.now work.old coded.old }
    ensures { coded.new ≡ tab word_bits (coded_in word.now) }
{
    accumulator::differentiate(word, work);
    interleaver_reader::deinterleave(work, coded);
}

// Step 7 undone: the block of the k bits that step 2 took in, and spare bits of 0.
fn give_out(rate: u64, input: &[u8], block: &mut [u8])
    requires { Gives rate input.now block.old }
    ensures { block.new ≡ packed_block rate (randomize (bit_at input.now)) }
{
    bits::change::copy_part(input, 0, block, 0, block.len());
    randomizer::randomize(block);
    bits::change::clear_spare(block, sizes::info_bits(rate));
}

// The block, if the questions are answered yes. Nothing is written before they are. `input` is a buffer for the input bits.
#[tactic(auto, using(word::proofs::Laws::Lists::undone_read))]
fn read_coded(rate: u64, coded: &[u8], input: &mut [u8], block: &mut [u8]) -> Result<(), Refusal>
    requires { Reads rate coded.now input.old block.old }
    ensures value { answer_of result ≡ judged rate (λ j. get_or coded.now j 0) (code.decode rate (λ j. get_or coded.now j 0)) }
    ensures block_after { block.new ≡ after (answer_of result) (packed_block rate (randomize (code.decode rate (λ j. get_or coded.now j 0)))) block.old }
{
    word_judge::judge(rate, coded, input)?;
    give_out(rate, input, block);
    Ok(())
}

// The block of a word whose rate and lengths are right.
fn decode(rate: u64, word: &[u8], block: &mut [u8]) -> Result<(), Refusal>
    requires { Words rate word.now block.old }
    ensures value { answer_of result ≡ judged rate (coded_in word.now) (input_in rate word.now) }
    ensures block_after { block.new ≡ after (answer_of result) (block_in rate word.now) block.old }
{
    let mut work = [0u8; 1890];
    let mut coded = [0u8; 15120];
    take_out(word, &mut work, &mut coded);
    // Memory is fixed: room for the longest input, of which a slice is used.
    let mut room = [0u8; 1260];
    let n = block.len() + 4;
    read_coded(rate, &coded, &mut room[..n], block)
}

// Reads the block of a word.
#[tactic(auto, using(word::proofs::Laws::Answers::read_judges))]
pub fn read(rate: u64, word: &[u8], block: &mut [u8]) -> Result<(), Refusal>
    ensures value { answer_of result ≡ word_read_says rate word.now (length block.old) }
    ensures block_after { block.new ≡ after (answer_of result) (block_in rate word.now) block.old }
{
    ask(rate < 3, Fault::BadRate)?;
    ask(
        word.len() == sizes::WORD_BYTES && block.len() == sizes::block_bytes(rate),
        Fault::BadLength,
    )?;
    decode(rate, word, block)
}
