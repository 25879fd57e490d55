// The pass reader: the blocks of words, read into a buffer of its own. Nothing is written before every word has given its block.
#![tactic(auto)]

ghost use Rattle.std.specs.Prelude.{◌≡◌, ◌≤◌, ◌<◌, ◌^◌, length};
ghost use Rattle.answers.specs.Answer.{after, put_in_order};
ghost use Rattle.answers.specs.Inner.{answer_of};
ghost use Rattle.pass.specs.Pass.{blocks_of, pass_word_says, pass_read_says};
ghost use Rattle.pass.specs.Inner.{Lent};

use answers::{Fault, Refusal, ask};

// The blocks, read into a buffer and copied once all words have given theirs.
fn read_with<const ROOM: usize>(
    rate: u64,
    n: usize,
    words: &[u8],
    blocks: &mut [u8],
) -> Result<(), Refusal>
    requires enough { length blocks.old ≤ ROOM }
    requires possible { ROOM < 2 ^ 63 }
    requires lent { Lent rate n blocks.old words.now }
    ensures value { answer_of result ≡ put_in_order n (pass_word_says rate words.now) }
    ensures blocks_after { blocks.new ≡ after (answer_of result) (blocks_of rate words.now) blocks.old }
{
    let mut room = [0u8; ROOM];
    let room = &mut room[..blocks.len()];
    pass_words::read_words(rate, n, words, room)?;
    blocks.copy_from_slice(room);
    Ok(())
}

// Reads the blocks of words.
#[tactic(auto, using(sizes::proofs::Laws::Rate::block_room, pass::proofs::Laws::Answers::right_said), unfolding(pass::specs::Pass::pass_read_says))]
pub fn read(rate: u64, words: &[u8], blocks: &mut [u8]) -> Result<(), Refusal>
    ensures value { answer_of result ≡ pass_read_says rate words.now (length blocks.old) }
    ensures blocks_after { blocks.new ≡ after (answer_of result) (blocks_of rate words.now) blocks.old }
{
    ask(rate < 3, Fault::BadRate)?;
    let size = sizes::block_bytes(rate);
    let n = words.len() / sizes::WORD_BYTES;
    ask(
        pass::pass_lengths_right(n, size, blocks.len(), words.len()),
        Fault::BadLength,
    )?;
    // Room for 16 blocks of any rate takes little clearing; 211 are the most.
    if n <= 16 {
        read_with::<20096>(rate, n, words, blocks)
    } else {
        read_with::<265016>(rate, n, words, blocks)
    }
}
