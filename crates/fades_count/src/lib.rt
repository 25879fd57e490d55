// Trying rows and steps against fades: how many symbols of each word the fades of a list hit.
#![tactic(auto)]

ghost use Rattle.std.specs.Prelude.{◌≡◌, length};
ghost use Rattle.answers.specs.Answer.{after};
ghost use Rattle.answers.specs.Inner.{answer_of};
ghost use Rattle.fades.specs.Fades.{counts_in, fades_say};

use answers::{Fault, Refusal, ask};
use header::form;

// Counts, for each word, those of its symbols that a fade covers. The list is judged whole before a number is written.
pub fn count(header: &[u8], fades: &[u32], counts: &mut [u32]) -> Result<(), Refusal>
    ensures value { answer_of result ≡ fades_say header.now fades.now (length counts.old) }
    ensures counts_after { counts.new ≡ after (answer_of result) (counts_in header.now fades.now) counts.old }
{
    header_answers::header_says(header)?;
    let g = header_sizes::layout_of(form::read(header));
    ask(counts.len() == g.words, Fault::BadLength)?;
    let good = fades_list::good(g.lines * (g.symbols + g.markers), fades);
    ask(good, Fault::BadFades)?;
    counts.fill(0);
    fades_walk::walk(g, fades, counts);
    Ok(())
}
