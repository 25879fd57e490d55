// Step 4, the convolutional code. Input bits are packed; coded bits are one to a byte.
#![tactic(auto)]

mod tables;

ghost use Rattle.std.specs.Prelude.{◌≡◌};
ghost use Rattle.bits.specs.Pack.{bit_at};
ghost use Rattle.bits.specs.Basics.{tab};
ghost use Rattle.sizes.specs.Sizes.{word_bits};
ghost use Rattle.convolution.specs.Code.{encode as encoded};
ghost use Rattle.convolution.specs.Inner.{Encodes};

// Step 4: the coded bits of the input bits.
pub fn encode(rate: u64, input: &[u8], coded: &mut [u8])
    requires { Encodes rate input.now coded.old }
    ensures { coded.new ≡ tab word_bits (encoded rate (bit_at input.now)) }
{
    match rate {
        0 => tables::thirds(input, coded),
        1 => tables::halves(input, coded),
        _ => tables::two_thirds(input, coded),
    }
}
