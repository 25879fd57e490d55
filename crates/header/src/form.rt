// Header bytes to fields, by shifts and masks.
ghost use Rattle.std.specs.Prelude.{◌≡◌, ◌≤◌, length};
ghost use Rattle.header.specs.Header.{fields_of, spare_of, old_spare_of};

use crate::Fields;

// The fields, all within the first eight bytes, so that those of an archived header are read too.
pub fn read(header: &[u8]) -> Fields
    requires { 8 ≤ length header.now }
    ensures { result ≡ fields_of header.now }
{
    let h = bits::packing::eight(header, 0);
    Fields {
        rate: (h >> 62) & 3,
        bits: ((h >> 58) & 15) as usize,
        rows: ((h >> 50) & 255) as usize,
        step: ((h >> 41) & 511) as usize,
        size: ((h >> 29) & 4095) as usize,
        markers: ((h >> 23) & 63) as usize,
        frames: ((h >> 16) & 127) as usize,
        copies: ((h >> 10) & 63) as usize,
    }
}

// The 26 bits after them.
pub fn spare(header: &[u8]) -> u64
    requires { length header.now ≡ 10 }
    ensures { result ≡ spare_of header.now }
{
    bits::packing::eight(header, 2) & 67108863
}

// The 16 bits after the fields of an archived header.
pub fn old_spare(header: &[u8]) -> u64
    requires { length header.now ≡ 8 }
    ensures { result ≡ old_spare_of header.now }
{
    bits::packing::eight(header, 0) & 65535
}
