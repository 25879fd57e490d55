// Step 4 of a word undone, and questions 13, 14 and 15 of the input bits that this gives.
#![tactic(auto)]

ghost use Rattle.std.specs.Prelude.{◌≡◌, ℕ, ◌<◌, get_or};
ghost use Rattle.bits.specs.Pack.{bit_at};
ghost use Rattle.sizes.specs.Inner.{input_bits};
ghost use Rattle.convolution.specs.Code as code;
ghost use Rattle.convolution.specs.Inner.{Decodes};
ghost use Rattle.word.specs.Word.{judged};
ghost use Rattle.answers.specs.Inner.{answer_of};

use answers::{Fault, Refusal, ask};

// Step 4 undone, and questions 13, 14 and 15.
pub fn judge(rate: u64, coded: &[u8], input: &mut [u8]) -> Result<(), Refusal>
    requires { Decodes rate coded.now input.old }
    ensures value { answer_of result ≡ judged rate (λ j. get_or coded.now j 0) (code.decode rate (λ j. get_or coded.now j 0)) }
    ensures by_index { (i : ℕ) → i < input_bits rate → bit_at input.new i ≡ code.decode rate (λ j. get_or coded.now j 0) i }
{
    let at = decoder::read(rate, coded, input);
    if at != sizes::WORD_BITS {
        return Err(Fault::BadCode.at(at));
    }
    let end = convolution::ends::end_of(input);
    ask(end & 3 == 0, Fault::BadTermination)?;
    let check = crc_check::check(input, sizes::info_bits(rate)) as u64;
    ask(end >> 2 == check, Fault::BadCheck)
}
