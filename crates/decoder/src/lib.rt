// Step 4 undone, and question 13. In go 15,120 coded bits, one to a place; out come the input bits, packed, and the first coded bit that
// they do not make, or 15,120. The fast way (`decoder_fast`) says of a word that nothing is wrong with it; of any other the slow one says what.
//
//     coded  --fast-->  input, and nothing wrong
//        |
//        +--back-->  input  --encode-->  made  --compare with coded-->  the first that differs
#![tactic(auto)]

ghost use Rattle.std.specs.Prelude.{◌≡◌, ℕ, ◌<◌, eqb, length, get_or};
ghost use Rattle.bits.specs.Basics.{up_to, tab};
ghost use Rattle.bits.specs.Pack.{bit_at};
ghost use Rattle.sizes.specs.Inner.{input_bits};
ghost use Rattle.sizes.specs.Sizes.{word_bits};
ghost use Rattle.convolution.specs.Code.{encode as encoded, decode as decoded};
ghost use Rattle.convolution.specs.Inner.{Encodes, Decodes};
ghost use Rattle.decoder.specs.Inner.{Unpacks, Packs};

use decoder_bits::{back, compare};

// The input bits of a word at each rate.
const THIRD: usize = sizes::WORD_BITS / 3;

const HALF: usize = sizes::WORD_BITS / 2;

const TWO_THIRDS: usize = 2 * THIRD;

// The input bits from the second output alone, one to a place.
fn unpacked(rate: u64, coded: &[u8], bits: &mut [u8])
    requires { Unpacks rate coded.now bits.old }
    ensures { bits.new ≡ tab (input_bits rate) (decoded rate (λ j. get_or coded.now j 0)) }
{
    match rate {
        0 => back::steps(3, THIRD, coded, bits),
        1 => back::steps(2, HALF, coded, bits),
        _ => back::pairs(coded, bits),
    }
}

// The same, packed. `room` is for them one to a place, at any rate.
fn packed(rate: u64, coded: &[u8], room: &mut [u8], input: &mut [u8])
    requires { Packs rate coded.now room.old input.old }
    ensures { (i : ℕ) → i < input_bits rate → bit_at input.new i ≡ decoded rate (λ j. get_or coded.now j 0) i }
{
    let n = sizes::input_bits(rate);
    unpacked(rate, coded, &mut room[..n]);
    bits::packing::pack(&room[..n], input);
}

// Step 4 undone, from the second output alone.
fn decode(rate: u64, coded: &[u8], input: &mut [u8])
    requires { Decodes rate coded.now input.old }
    ensures { (i : ℕ) → i < input_bits rate → bit_at input.new i ≡ decoded rate (λ j. get_or coded.now j 0) i }
{
    let mut room = [0u8; TWO_THIRDS];
    packed(rate, coded, &mut room, input);
}

// Question 13: the first coded bit that the input bits do not make; 15120 where they make all.
fn first_wrong(rate: u64, input: &[u8], coded: &[u8]) -> usize
    requires { Encodes rate input.now coded.now }
    ensures { result ≡ up_to (λ j. eqb (get_or coded.now j 0) (encoded rate (bit_at input.now) j)) 0 word_bits }
{
    let mut made = [0u8; sizes::WORD_BITS];
    remade(rate, input, coded, &mut made)
}

// The coded bits of the input bits are made once more, in `made`, and compared.
fn remade(rate: u64, input: &[u8], coded: &[u8], made: &mut [u8]) -> usize
    requires encodes { Encodes rate input.now coded.now }
    requires made_len { length made.old ≡ word_bits }
    ensures { result ≡ up_to (λ j. eqb (get_or coded.now j 0) (encoded rate (bit_at input.now) j)) 0 word_bits }
{
    encoder::encode(rate, input, made);
    compare::first_apart(made, coded)
}

// Step 4 undone, and question 13 of the input bits that this gives.
pub fn read(rate: u64, coded: &[u8], input: &mut [u8]) -> usize
    requires { Decodes rate coded.now input.old }
    ensures value { result ≡ up_to (λ j. eqb (get_or coded.now j 0) (encoded rate (decoded rate (λ j. get_or coded.now j 0)) j)) 0 word_bits }
    ensures by_index { (i : ℕ) → i < input_bits rate → bit_at input.new i ≡ decoded rate (λ j. get_or coded.now j 0) i }
{
    if decoder_fast::quick(rate, coded, input) == 0 {
        return sizes::WORD_BITS;
    }
    decode(rate, coded, input);
    first_wrong(rate, input, coded)
}
