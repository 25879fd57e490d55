// Words back to back, read one after another up to the first that is refused: those of a pass, and those of a run.
#![tactic(auto)]

ghost use Rattle.std.specs.Prelude.{◌≡◌, ℕ, ◌<◌};
ghost use Rattle.bits.specs.Pack.{piece};
ghost use Rattle.answers.specs.Answer.{Done, after, put_in_order};
ghost use Rattle.answers.specs.Inner.{answer_of};
ghost use Rattle.sizes.specs.Sizes.{block_bytes, word_bytes};
ghost use Rattle.word.specs.Word.{block_in};
ghost use Rattle.pass.specs.Pass.{pass_word_says};
ghost use Rattle.pass_words.specs.Inner.{ReadsWord, ReadsWords};

use answers::Refusal;

// The word reader's answer to word j, and its block.
fn read_word(rate: u64, words: &[u8], j: usize, block: &mut [u8]) -> Result<(), Refusal>
    requires { ReadsWord rate words.now j block.old }
    ensures value { answer_of result ≡ pass_word_says rate words.now j }
    ensures block_after { block.new ≡ after (answer_of result) (block_in rate (piece word_bytes words.now j)) block.old }
{
    let at = j * sizes::WORD_BYTES;
    word_reader::read(rate, &words[at..at + sizes::WORD_BYTES], block)
}

// The same of n words, one after another.
pub fn read_words(rate: u64, n: usize, words: &[u8], blocks: &mut [u8]) -> Result<(), Refusal>
    requires { ReadsWords rate n words.now blocks.old }
    ensures value { answer_of result ≡ put_in_order n (pass_word_says rate words.now) }
    ensures j_after { answer_of result ≡ Done → (j : ℕ) → j < n → piece (block_bytes rate) blocks.new j ≡ block_in rate (piece word_bytes words.now j) }
{
    let size = sizes::block_bytes(rate);
    for j in 0..n {
        let at = j * size;
        let answer = read_word(rate, words, j, &mut blocks[at..at + size]);
        answer.map_err(|refusal| refusal.moved_to(j))?;
    }
    Ok(())
}
