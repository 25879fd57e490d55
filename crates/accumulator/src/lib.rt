// Step 6, the accumulator, on packed bits: in place, and back into another slice.
#![tactic(auto)]

ghost use Rattle.std.specs.Prelude.{◌≡◌, ◌*◌, ◌≤◌, ◌<◌, length};
ghost use Rattle.bits.specs.Pack as packed;
ghost use Rattle.bits.specs.Pack.{val, bit_at, bytes_of};
ghost use Rattle.accumulator.specs.Accumulator as step;
ghost use Rattle.accumulator.specs.Inner.{bit_of, accumulate_from, differentiate_from, SoFar};

use bits::packing;

// The 64 outputs for the inputs in `b`, where `last` is the output before them: the running sums of the bits, by doubling, all flipped if that
// output is 1.
fn summed_64(b: u64, last: u64) -> u64
    requires { last < 2 }
    ensures { result ≡ val (accumulate_from last (packed.bit_of b)) 64 }
{
    let two = b ^ (b >> 1);
    let four = two ^ (two >> 2);
    let eight = four ^ (four >> 4);
    let sixteen = eight ^ (eight >> 8);
    let half = sixteen ^ (sixteen >> 16);
    let whole = half ^ (half >> 32);
    whole ^ (last * 0xFFFF_FFFF_FFFF_FFFF)
}

// The eight outputs for the inputs in `b`: the first eight of 64.
fn summed(b: u8, last: u8) -> u8
    requires { last < 2 }
    ensures { result ≡ val (accumulate_from last (bit_of b)) 8 }
{
    (summed_64(u64::from(b) << 56, u64::from(last)) >> 56) as u8
}

// The first 8 n bytes, and the last output among them.
fn by_eights(word: &mut [u8], n: usize) -> u8
    requires { 8 * n ≤ length word.old }
    ensures { SoFar word.old word.new (8 * n) result }
{
    let mut last: u8 = 0;
    for j in 0..n {
        let sums = summed_64(packing::eight(word, 8 * j), last as u64);
        packing::put_eight(word, 8 * j, sums);
        last = (sums & 1) as u8;
    }
    last
}

pub fn accumulate(word: &mut [u8])
    ensures { word.new ≡ bytes_of (length word.old) (step.accumulate (bit_at word.old)) }
{
    let n = word.len() / 8;
    let mut last = by_eights(word, n);
    for i in 8 * n..word.len() {
        let sums = summed(word[i], last);
        word[i] = sums;
        last = sums & 1;
    }
}

// The eight inputs for the outputs in `b`, where `prior` is the output before them.
fn stepped(b: u8, prior: u8) -> u8
    requires { prior < 2 }
    ensures { result ≡ val (differentiate_from prior (bit_of b)) 8 }
{
    b ^ (b >> 1) ^ (prior << 7)
}

// Back to the inputs.
pub fn differentiate(word: &[u8], inputs: &mut [u8])
    requires { length inputs.old ≡ length word.now }
    ensures { inputs.new ≡ bytes_of (length word.now) (step.differentiate (bit_at word.now)) }
{
    let mut prior: u8 = 0;
    for (i, outputs) in word.iter().enumerate() {
        inputs[i] = stepped(*outputs, prior);
        prior = *outputs & 1;
    }
}
