// The run writer: frames to slots. Questions 1 to 7, 20 and 8, the words of the frames' blocks, and the slots of the words.
#![tactic(auto)]

ghost use Rattle.std.specs.Prelude.{◌≡◌, ℕ, ◌*◌, ◌^◌, ◌≤◌, ◌<◌, length};
ghost use Rattle.answers.specs.Answer.{after};
ghost use Rattle.answers.specs.Inner.{answer_of};
ghost use Rattle.header_sizes.specs.Quantities.{block_count};
ghost use Rattle.plan.specs.Inner.{Entered};
ghost use Rattle.plan.specs.Plan.{plan_of};
ghost use Rattle.slots.specs.Writing.{run_slots};
ghost use Rattle.run.specs.Run.{word_at, run_of, run_write_says};
ghost use Rattle.run_writer.specs.Inner.{Codes, CodesAll};
ghost use Rattle.bits.specs.Pack.{piece};
ghost use Rattle.sizes.specs.Sizes.{word_bytes};

use answers::Refusal;
use header::Fields;
use parameters::Parameters;

// Word j of the frames: its block, coded. `space` is for a packed block of any rate.
#[tactic(auto, using(sizes::proofs::Laws::Rate::block_room, header_sizes::proofs::Laws::Bounds::blocks_most, crate::proofs::Coding::frames_lent), unfolding(run::specs::Run::word_at, run::specs::Run::stream_of))]
fn code_word(f: Fields, frames: &[u8], j: usize, space: &mut [u8], word: &mut [u8])
    requires { Codes f frames.now j space.old word.old }
    ensures { word.new ≡ word_at f frames.now j }
{
    let block = &mut space[..sizes::block_bytes(f.rate)];
    stream_blocks::fill_block(f.rate, frames, f.size, f.frames, j, block);
    word_writer::write(f.rate, block, word).unwrap()
}

// All of them, back to back.
fn code_words(f: Fields, frames: &[u8], space: &mut [u8], words: &mut [u8])
    requires { CodesAll f frames.now space.old words.old }
    ensures { (j : ℕ) → j < block_count f → piece word_bytes words.new j ≡ word_at f frames.now j }
{
    for j in 0..header_sizes::block_count(f) {
        let at = j * sizes::WORD_BYTES;
        code_word(f, frames, j, space, &mut words[at..at + sizes::WORD_BYTES]);
    }
}

// The slots of the frames, with a buffer for their words of so many bytes.
fn write_with<const ROOM: usize>(q: Parameters, frames: &[u8], slots: &mut [u8])
    requires entered { Entered q (length frames.now) (length slots.old) }
    requires enough { block_count q.fields * word_bytes ≤ ROOM }
    requires possible { ROOM < 2 ^ 63 }
    ensures { slots.new ≡ run_slots (plan_of q) (word_at q.fields frames.now) }
{
    let mut space = [0u8; 1256];
    let mut words = [0u8; ROOM];
    code_words(q.fields, frames, &mut space, &mut words);
    slots_writer::write(plan::plan_of(q), &words, slots);
}

// Writes the slots of frames.
#[tactic(auto, using(header_sizes::proofs::Laws::Bounds::blocks_most, plan::proofs::Laws::Accepted::entered), unfolding(run::specs::Run::run_write_says, run::specs::Run::run_of, parameters::specs::Parameters::parameters_of))]
pub fn write(header: &[u8], marker: &[u8], frames: &[u8], slots: &mut [u8]) -> Result<(), Refusal>
    ensures value { answer_of result ≡ run_write_says header.now marker.now frames.now (length slots.old) }
    ensures slots_after { slots.new ≡ after (answer_of result) (run_of header.now marker.now frames.now) slots.old }
{
    let q = plan::check(header, marker, frames.len(), slots.len())?;
    // Room for sixteen words takes little clearing; 210 are the most.
    if header_sizes::block_count(q.fields) <= 16 {
        write_with::<30240>(q, frames, slots);
    } else {
        write_with::<396900>(q, frames, slots);
    }
    Ok(())
}
