// The bits of step 7's sequence that a codeblock gets, 64 for its frame and 64 for its parity bits.
pub const FIRST: u64 = 0xFF48_0EC0_9A0D_70BC;

pub const SECOND: u64 = 0x8E2C_93AD_A7B7_46CE;
