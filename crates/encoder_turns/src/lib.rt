// The coded bits, a turn at a time: those of one input byte, or of two at rate 2/3, eight at once from a table.
#![tactic(auto)]

ghost use Rattle.std.specs.Prelude.{◌≡◌, ◌+◌, ◌*◌, ◌^◌, ◌≤◌, ◌<◌, length};
ghost use Rattle.bits.specs.Pack.{bit_at};
ghost use Rattle.bits.specs.Basics.{tab};
ghost use Rattle.sizes.specs.Sizes.{word_bits};
ghost use Rattle.convolution.specs.Code.{encode};
ghost use Rattle.encoder_turns.specs.Inner.{Codes, byte_of, bit_in, turn_bit, Thirds, Halves, TwoThirds};
ghost use Rattle.convolution.specs.Inner.{Put};

// The eight bytes of a number, the lowest first, from place `at` on.
fn put_low_eight(out: &mut [u8], at: usize, v: u64)
    requires { at + 8 ≤ length out.old }
    ensures { Put out.old at 8 (byte_of v) out.new }
{
    out[at..at + 8].copy_from_slice(&v.to_le_bytes());
}

// w with the bits of a byte appended.
fn pushed(w: usize, byte: u8) -> usize
    requires { w < 2 ^ 10 }
    ensures { result ≡ w * 2 ^ 8 + byte }
{
    (w << 8) | (byte as usize)
}

// A turn at the rate 1/3, by the ten bits of w: an input byte and the two bits before it.
fn third_turn(table: &[u64], w: usize, coded: &mut [u8], at: usize)
    requires thirds { Thirds table.now }
    requires at_in_bounds { at + 24 ≤ length coded.old }
    ensures { Put coded.old at 24 (turn_bit 0 (bit_in 10 w)) coded.new }
{
    put_low_eight(coded, at, table[(w >> 5) & 31]);
    put_low_eight(coded, at + 8, table[32 + ((w >> 2) & 63)]);
    put_low_eight(coded, at + 16, table[96 + (w & 31)]);
}

// Rate 1/3.
pub fn thirds(table: &[u64], input: &[u8], coded: &mut [u8])
    requires thirds { Thirds table.now }
    requires codes { Codes 630 input.now coded.old }
    ensures { coded.new ≡ tab word_bits (encode 0 (bit_at input.now)) }
{
    let mut before = 0;
    for (i, byte) in input.iter().enumerate() {
        let w = pushed(before, *byte);
        third_turn(table, w, coded, 24 * i);
        before = (*byte as usize) & 3;
    }
}

// A turn at the rate 1/2, likewise.
fn half_turn(table: &[u64], w: usize, coded: &mut [u8], at: usize)
    requires halves { Halves table.now }
    requires at_in_bounds { at + 16 ≤ length coded.old }
    ensures { Put coded.old at 16 (turn_bit 1 (bit_in 10 w)) coded.new }
{
    put_low_eight(coded, at, table[(w >> 4) & 63]);
    put_low_eight(coded, at + 8, table[w & 63]);
}

// Rate 1/2. One loop for this and rate 1/3 would take the turn, its law and its sizes by a trait, which is longer than the loop.
pub fn halves(table: &[u64], input: &[u8], coded: &mut [u8])
    requires halves { Halves table.now }
    requires codes { Codes 945 input.now coded.old }
    ensures { coded.new ≡ tab word_bits (encode 1 (bit_at input.now)) }
{
    let mut before = 0;
    for (i, byte) in input.iter().enumerate() {
        let w = pushed(before, *byte);
        half_turn(table, w, coded, 16 * i);
        before = (*byte as usize) & 3;
    }
}

// A turn at the rate 2/3, by the 18 bits of w: two input bytes and the two bits before them. One function for this and `third_turn`
// would be given the seven numbers that differ, which say more where they stand.
fn two_thirds_turn(table: &[u64], w: usize, coded: &mut [u8], at: usize)
    requires two_thirds { TwoThirds table.now }
    requires at_in_bounds { at + 24 ≤ length coded.old }
    ensures { Put coded.old at 24 (turn_bit 2 (bit_in 18 w)) coded.new }
{
    put_low_eight(coded, at, table[(w >> 11) & 127]);
    put_low_eight(coded, at + 8, table[128 + ((w >> 5) & 255)]);
    put_low_eight(coded, at + 16, table[384 + (w & 255)]);
}

// Rate 2/3.
pub fn two_thirds(table: &[u64], input: &[u8], coded: &mut [u8])
    requires two_thirds { TwoThirds table.now }
    requires codes { Codes 1260 input.now coded.old }
    ensures { coded.new ≡ tab word_bits (encode 2 (bit_at input.now)) }
{
    let mut before = 0;
    for i in 0..630 {
        let one = pushed(before, input[2 * i]);
        let byte = input[2 * i + 1];
        let w = pushed(one, byte);
        two_thirds_turn(table, w, coded, 24 * i);
        before = (byte as usize) & 3;
    }
}
