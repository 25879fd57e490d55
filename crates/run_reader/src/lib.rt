// The run reader: slots to frames. Questions 1 to 7, 20 and 8, then 9 to 16 and 18, and the frames once
// all are answered yes.
#![tactic(auto)]

ghost use Rattle.std.specs.Prelude.{◌≡◌, ◌*◌, ◌^◌, ◌≤◌, ◌<◌, length};
ghost use Rattle.answers.specs.Answer.{after};
ghost use Rattle.answers.specs.Inner.{answer_of};
ghost use Rattle.sizes.specs.Sizes.{info_bits, block_bytes, word_bytes};
ghost use Rattle.header_sizes.specs.Quantities.{block_count};
ghost use Rattle.plan.specs.Inner.{Entered};
ghost use Rattle.plan.specs.Plan.{plan_of};
ghost use Rattle.stream_reader.specs.Frames.{joined, frames_in, frames_say};
ghost use Rattle.slots.specs.Reading.{word_out};
ghost use Rattle.bits.specs.Pack.{piece};
ghost use Rattle.run.specs.Run.{frames_of, frames_read, buffer_says, run_read_says};
ghost use Rattle.run_reader.specs.Inner.{Reads, Finishes};

use answers::Refusal;
use header::Fields;
use parameters::Parameters;

// Questions 16 and 18, and the frames. Nothing is written before they are answered yes.
#[tactic(auto, using(crate::proofs::Reading::frames_judged), unfolding(header_sizes::specs::Quantities::frame_bytes))]
fn finish(f: Fields, blocks: &[u8], frames: &mut [u8]) -> Result<(), Refusal>
    requires { Finishes f blocks.now frames.old }
    ensures value { answer_of result ≡ frames_say f.size f.frames (block_count f * info_bits f.rate) (joined f.rate (piece (block_bytes f.rate) blocks.now)) }
    ensures frames_after { frames.new ≡ after (answer_of result) (frames_in f.size f.frames (joined f.rate (piece (block_bytes f.rate) blocks.now))) frames.old }
{
    let pieces = header_sizes::block_count(f);
    stream_questions::frames_say(f.rate, blocks, pieces, f.size, f.frames)?;
    stream_frames::frames_out(f.rate, blocks, pieces, f.size, f.frames, frames);
    Ok(())
}

// The questions of slots of the right length, and the frames. `words` and `blocks` are buffers for all
// words and for all blocks.
#[tactic(auto, using(crate::proofs::Reading::plan_slots, crate::proofs::Reading::plan_cleared, header_sizes::proofs::Laws::Bounds::blocks_most), unfolding(run::specs::Run::buffer_says))]
fn read_in(
    q: Parameters,
    slots: &[u8],
    words: &mut [u8],
    blocks: &mut [u8],
    frames: &mut [u8],
) -> Result<(), Refusal>
    requires { Reads q slots.now words.old blocks.old frames.old }
    ensures value { answer_of result ≡ buffer_says q.fields (plan_of q) slots.now }
    ensures frames_after { frames.new ≡ after (answer_of result) (frames_of q.fields (word_out (plan_of q) slots.now)) frames.old }
{
    let f = q.fields;
    slots_reader::slots_say(plan::plan_of(q), slots, words)?;
    // The customer wants this answer taken apart by `let .. else`.
    let heard = pass_words::read_words(f.rate, header_sizes::block_count(f), words, blocks);
    let Ok(()) = heard else {
        return heard;
    };
    finish(f, blocks, frames)
}

// With buffers for the words and the blocks, of so many bytes.
#[tactic(auto, using(bits::proofs::Laws::Buffers::buffer_empty))]
fn read_with<const WORDS: usize, const BLOCKS: usize>(
    q: Parameters,
    slots: &[u8],
    frames: &mut [u8],
) -> Result<(), Refusal>
    requires entered { Entered q (length frames.old) (length slots.now) }
    requires words_fit { block_count q.fields * word_bytes < WORDS }
    requires blocks_fit { block_count q.fields * block_bytes q.fields.rate ≤ BLOCKS }
    requires possible { (WORDS < 2 ^ 63) × (BLOCKS < 2 ^ 63) }
    ensures value { answer_of result ≡ buffer_says q.fields (plan_of q) slots.now }
    ensures frames_after { frames.new ≡ after (answer_of result) (frames_of q.fields (word_out (plan_of q) slots.now)) frames.old }
{
    let mut words = [0u8; WORDS];
    let mut blocks = [0u8; BLOCKS];
    read_in(q, slots, &mut words, &mut blocks, frames)
}

// Reads the frames of slots.
#[tactic(auto, using(header_sizes::proofs::Laws::Bounds::blocks_most, sizes::proofs::Laws::Rate::block_room, crate::proofs::Reading::most_blocks, plan::proofs::Laws::Accepted::entered), unfolding(run::specs::Run::run_read_says, run::specs::Run::frames_read, parameters::specs::Parameters::parameters_of))]
pub fn read(header: &[u8], marker: &[u8], slots: &[u8], frames: &mut [u8]) -> Result<(), Refusal>
    ensures value { answer_of result ≡ run_read_says header.now marker.now slots.now (length frames.old) }
    ensures frames_after { frames.new ≡ after (answer_of result) (frames_read header.now marker.now slots.now) frames.old }
{
    let q = plan::check(header, marker, frames.len(), slots.len())?;
    // Room for sixteen words takes little clearing; the other holds the most words, and the most blocks at any rate.
    if header_sizes::block_count(q.fields) <= 16 {
        read_with::<30241, 20096>(q, slots, frames)
    } else {
        read_with::<396901, 131880>(q, slots, frames)
    }
}
