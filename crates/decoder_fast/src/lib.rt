// Reading with no carried state, seven places at once. In go the coded bits; out come the input bits, packed, and 0 only where they make
// all coded bits. Of two neighbouring outputs the sum is the input bit before; where the first outputs are those of these sums, nothing is
// wrong. By columns (see `decoder_columns`): at rate 1/3 an input bit has three columns, at 1/2 two, and at 2/3 two input bits have three.
//
//     coded  --columns-->  v  --sums of two, of five-->  d, e  --every 3rd, 2nd, or two of three-->  input
#![tactic(auto)]

ghost use Rattle.std.specs.Prelude.{◌≡◌, ◌*◌, length};
ghost use Rattle.word_columns.specs.Inner.{Coded};
ghost use Rattle.decoder_fast.specs.Inner.{third_bytes, half_bytes, two_thirds_bytes, Summed, StartsRight};
ghost use Rattle.decoder_columns.specs.Inner.{Row};
ghost use Rattle.convolution.specs.Inner.{Decodes, Made};

use decoder_bytes::{TWO_THIRDS_BYTES, Turns, take};
use decoder_columns::apart::{AT_ONCE, Sums, apart};
use decoder_columns::rows;
use word_columns::ROW;

// The bytes of the input bits of a row at the other two rates.
const THIRD_BYTES: usize = ROW / 3 / 8;

const HALF_BYTES: usize = ROW / 2 / 8;

// The second and the third places among those that are looked at together.
const SECONDS: usize = AT_ONCE / 2;

const THIRDS: usize = AT_ONCE / 3;

// The columns of the coded bits, and of the sums of two neighbours.
fn summed(coded: &[u8], v: &mut [u8], d: &mut [u8])
    requires coded { Coded coded.now }
    requires row { Row v.old × Row d.old }
    ensures { Summed coded.now v.new d.new }
{
    rows::columns(coded, v);
    rows::twos(v, d);
}

// Before the first input bit there are zeros: 0 only where the first two outputs are alike, and the lowest bit of w.
fn start_apart(coded: &[u8], w: u8) -> u8
    requires { Coded coded.now }
    ensures { result ≡ 0 → StartsRight coded.now w }
{
    (coded[0] ^ coded[1]) | (coded[0] ^ (w & 1))
}

// Rate 1/3: the outputs of input bit i stand at 3 i, 3 i + 1 and 3 i + 2, and the third is the second once more. Input bit i is the sum of
// two at 3 i + 3, so the even ones are taken from place 3 on and the odd ones from 6 on, six apart. Then each first output must be the sum
// of its input bit and of the one two before it, and each third the second. As at the other rates, 0 only where nothing is wrong.
fn thirds(coded: &[u8], v: &[u8], d: &[u8], input: &mut [u8]) -> u8
    requires summed { Summed coded.now v.now d.now }
    requires input_len { length input.old ≡ 7 * third_bytes }
    ensures { result ≡ 0 → Made 0 coded.now input.new }
{
    take(
        d,
        d,
        Turns {
            x: 3,
            y: 6,
            step: 6,
            groups: THIRD_BYTES,
        },
        input,
    );
    start_apart(coded, d[3])
        | apart(
            d,
            v,
            d,
            Sums {
                second: 3,
                third: 6,
                step: 3,
                count: THIRDS,
            },
        )
        | apart(
            d,
            v,
            v,
            Sums {
                second: 0,
                third: 2,
                step: 3,
                count: THIRDS,
            },
        )
}

// Rate 1/2: the outputs of input bit i stand at 2 i and 2 i + 1, and it is the sum of two at 2 i + 2.
fn halves(coded: &[u8], v: &[u8], d: &[u8], input: &mut [u8]) -> u8
    requires summed { Summed coded.now v.now d.now }
    requires input_len { length input.old ≡ 7 * half_bytes }
    ensures { result ≡ 0 → Made 1 coded.now input.new }
{
    take(
        d,
        d,
        Turns {
            x: 2,
            y: 4,
            step: 4,
            groups: HALF_BYTES,
        },
        input,
    );
    start_apart(coded, d[2])
        | apart(
            d,
            v,
            d,
            Sums {
                second: 2,
                third: 4,
                step: 2,
                count: SECONDS,
            },
        )
}

// Rate 2/3: the first output of input bit 2 q stands at 3 q, and then its second one and that of the next. Input bit 2 q + 1 is the sum of
// two at 3 q + 3; bit 2 q, whose next has no first output, is the sum of five at 3 q.
fn two_thirds(coded: &[u8], v: &[u8], d: &[u8], input: &mut [u8]) -> u8
    requires summed { Summed coded.now v.now d.now }
    requires input_len { length input.old ≡ 7 * two_thirds_bytes }
    ensures { result ≡ 0 → Made 2 coded.now input.new }
{
    let mut e = [0u8; rows::PLACES];
    rows::fives(v, &mut e);
    take(
        &e,
        d,
        Turns {
            x: 0,
            y: 3,
            step: 3,
            groups: TWO_THIRDS_BYTES,
        },
        input,
    );
    start_apart(coded, e[0])
        | apart(
            &e,
            v,
            &e,
            Sums {
                second: 3,
                third: 3,
                step: 3,
                count: THIRDS,
            },
        )
}

// The same at any rate. v and d are room for columns.
fn by_rate(rate: u64, coded: &[u8], v: &mut [u8], d: &mut [u8], input: &mut [u8]) -> u8
    requires decodes { Decodes rate coded.now input.old }
    requires row { Row v.old × Row d.old }
    ensures { result ≡ 0 → Made rate coded.now input.new }
{
    summed(coded, v, d);
    match rate {
        0 => thirds(coded, v, d, input),
        1 => halves(coded, v, d, input),
        _ => two_thirds(coded, v, d, input),
    }
}

pub fn quick(rate: u64, coded: &[u8], input: &mut [u8]) -> u8
    requires { Decodes rate coded.now input.old }
    ensures { result ≡ 0 → Made rate coded.now input.new }
{
    let mut v = [0u8; rows::PLACES];
    let mut d = [0u8; rows::PLACES];
    by_rate(rate, coded, &mut v, &mut d, input)
}
