// Steps 10 to 8 undone, with questions 9 to 12: slots back to words.
#![tactic(auto)]

mod sweep;

ghost use Rattle.std.specs.Prelude.{◌≡◌, ℕ, ◌<◌, OnOk};
ghost use Rattle.answers.specs.Inner.{answer_of};
ghost use Rattle.bits.specs.Pack.{piece};
ghost use Rattle.sizes.specs.Sizes.{word_bytes};
ghost use Rattle.slots.specs.Inner.{RunSlots};
ghost use Rattle.slots_places.specs.Inner.{Cleared};
ghost use Rattle.slots.specs.Reading.{slots_say, word_out};

use answers::{Fault, Refusal, ask};

// Questions 9 to 12, and the words, back to back, where all are answered yes.
pub fn slots_say(p: plan::Plan, b: &[u8], words: &mut [u8]) -> Result<(), Refusal>
    requires { RunSlots p b.now × Cleared p words.old }
    ensures value { answer_of result ≡ slots_say p b.now }
    ensures j_after { OnOk result ((j : ℕ) → j < p.layout.words → piece word_bytes words.new j ≡ word_out p b.now j) }
{
    let n = p.layout.lines * (p.layout.symbols + p.layout.markers);
    let end = 8 * b.len();
    let spare = bits::scan::first_one(b, n * p.copies * p.group, end);
    ask(spare == end, Fault::BadSpare)?;
    let found = sweep::find(p, b, words);
    if found.group != n {
        return Err(Fault::BadPulse.at(found.group));
    }
    let mark = slots_symbols::first_bad_mark(p, b);
    if mark != n {
        return Err(Fault::WrongMarker.at(mark));
    }
    if found.rest != n {
        return Err(Fault::BadIdle.at(found.rest));
    }
    Ok(())
}
