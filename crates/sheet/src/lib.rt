// The line that `runsheet` prints of a header: what a run with it holds, or the number of the question that it fails.
#![tactic(auto)]

pub mod print;
mod text;

ghost use Rattle.std.specs.Prelude.{◌≡◌, ◌≤◌, ◌<◌, length};
ghost use Rattle.io.specs.Counts.{IsPrefixLen};
ghost use Rattle.header_sizes.specs.Inner.{Valid};
ghost use Rattle.sheet.specs.Inner.{Put};
ghost use Rattle.sheet.specs.Line.{rate_text, run_numbers, run_line, no_line, Printed};

use header::{Fields, form};

// The code rate as a fraction.
fn rate_text(rate: u64) -> [u8; 3]
    requires { rate < 3 }
    ensures { result ≡ rate_text rate }
{
    match rate {
        0 => [b'1', b'/', b'3'],
        1 => [b'1', b'/', b'2'],
        _ => [b'2', b'/', b'3'],
    }
}

// M, N, B, F, W, A, C, the symbols with markers and the slots, both with copies counted, and the factor.
fn run_numbers(f: Fields) -> [u64; 10]
    requires { Valid f × (f.copies ≤ 32) }
    ensures { result ≡ run_numbers f }
{
    let order = header_sizes::pulse_order(f) as u64;
    let blocks = header_sizes::block_count(f) as u64;
    let symbols = header_sizes::sent_symbols(f) as u64;
    let slots = header_sizes::slot_count(f) as u64;
    [
        order,
        f.rows as u64,
        f.step as u64,
        f.size as u64,
        f.markers as u64,
        f.frames as u64,
        blocks,
        symbols,
        slots,
        f.copies as u64,
    ]
}

// The line of a header that is accepted.
fn put_run(f: Fields, out: &mut [u8]) -> usize
    requires valid { Valid f × (f.copies ≤ 32) }
    requires in_bounds { 256 ≤ length out.old }
    ensures { Put out.old 0 (run_line f) out.new result }
{
    let rate = rate_text(f.rate);
    let at = text::put(&rate, 0, out);
    let numbers = run_numbers(f);
    text::put_items(&numbers, at, out)
}

// `no` and the number.
fn put_no(number: u64, out: &mut [u8]) -> usize
    requires { 256 ≤ length out.old }
    ensures { Put out.old 0 (no_line number) out.new result }
{
    let at = text::put(b"no", 0, out);
    let numbers = [number];
    text::put_items(&numbers, at, out)
}

// The line of any bytes, from the start of `out` on. Its length is returned.
pub fn line(header: &[u8], out: &mut [u8]) -> usize
    requires { 256 ≤ length out.old }
    ensures printed { Printed header.now out.new result }
    ensures prefix_len { IsPrefixLen result out.new }
{
    match header_answers::header_says(header) {
        Ok(()) => put_run(form::read(header), out),
        Err(refusal) => put_no(refusal.fault.number(), out),
    }
}
