// A step of the delay lines: the questions, and then a turn of a row.
#![tactic(auto)]

ghost use Rattle.std.specs.Prelude.{◌≡◌, ◌%◌, length, IfOk};
ghost use Rattle.answers.specs.Answer.{after};
ghost use Rattle.answers.specs.Inner.{answer_of};
ghost use Rattle.header.specs.Header.{fields_of};
ghost use Rattle.delay.specs.Delay.{step_says, gives, leaves};

use answers::{Fault, Refusal, ask};
use delay::Side;
use delay_rows::{exchange, row_of};
use header::form;

// The questions of the header, then 8 and 26.
fn says(header: &[u8], symbol: u64, length: usize) -> Result<(), Refusal>
    ensures { answer_of result ≡ step_says header.now symbol «length» }
{
    header_answers::header_says(header)?;
    let f = form::read(header);
    ask(
        length == header_sizes::interleaver_delay(f) / 2,
        Fault::BadLength,
    )?;
    ask(
        (symbol as usize) < header_sizes::pulse_order(f),
        Fault::BadSymbol,
    )
}

// Step n, which may be any number: takes a symbol, and gives one.
pub fn step(side: Side, header: &[u8], n: u64, symbol: u64, area: &mut [u8]) -> Result<u8, Refusal>
    ensures answer_value { answer_of result ≡ step_says header.now symbol (length area.old) }
    ensures symbol_value { IfOk result (λ given. given ≡ gives side (fields_of header.now) n symbol area.old) }
    ensures area_after { area.new ≡ after (answer_of result) (leaves side (fields_of header.now) n symbol area.old) area.old }
{
    says(header, symbol, area.len())?;
    let f = form::read(header);
    let rows = f.rows;
    let at = n as usize;
    let row = row_of(side, rows, f.step, at % rows);
    Ok(exchange(area, row.begin, row.lag, at / rows, symbol as u8))
}
