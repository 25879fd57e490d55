// The pass writer: the words of blocks, one after another, straight into their places. With the lengths right no block is refused.
#![tactic(auto)]

ghost use Rattle.std.specs.Prelude.{◌≡◌, length};
ghost use Rattle.bits.specs.Pack.{piece};
ghost use Rattle.answers.specs.Answer.{after};
ghost use Rattle.answers.specs.Inner.{answer_of};
ghost use Rattle.sizes.specs.Sizes.{block_bytes};
ghost use Rattle.word.specs.Word.{word_of};
ghost use Rattle.pass.specs.Pass.{words_of, pass_write_says};
ghost use Rattle.pass.specs.Inner.{Lent};
ghost use Rattle.pass_writer.specs.Inner.{Codes};

use answers::{Fault, Refusal, ask};

// The word of block j of n.
fn code_block(rate: u64, n: usize, blocks: &[u8], j: usize, word: &mut [u8])
    requires { Codes rate n j blocks.now word.old }
    ensures { word.new ≡ word_of rate (piece (block_bytes rate) blocks.now j) }
{
    let size = sizes::block_bytes(rate);
    let at = j * size;
    let end = at + size;
    word_writer::write(rate, &blocks[at..end], word).unwrap()
}

// The words of all n.
fn code_all(rate: u64, n: usize, blocks: &[u8], words: &mut [u8])
    requires { Lent rate n blocks.now words.old }
    ensures { words.new ≡ words_of rate blocks.now }
{
    for j in 0..n {
        let at = j * sizes::WORD_BYTES;
        code_block(rate, n, blocks, j, &mut words[at..at + sizes::WORD_BYTES]);
    }
}

// Writes the words of packed blocks.
#[tactic(auto, using(pass::proofs::Laws::Answers::block_pos, sizes::proofs::Laws::Rate::block_room, pass::proofs::Laws::Answers::right_said, pass::proofs::Laws::Answers::write_done), unfolding(pass::specs::Pass::pass_write_says))]
pub fn write(rate: u64, blocks: &[u8], words: &mut [u8]) -> Result<(), Refusal>
    ensures value { answer_of result ≡ pass_write_says rate blocks.now (length words.old) }
    ensures words_after { words.new ≡ after (answer_of result) (words_of rate blocks.now) words.old }
{
    ask(rate < 3, Fault::BadRate)?;
    let size = sizes::block_bytes(rate);
    let n = blocks.len() / size;
    ask(
        pass::pass_lengths_right(n, size, blocks.len(), words.len()),
        Fault::BadLength,
    )?;
    code_all(rate, n, blocks, words);
    Ok(())
}
