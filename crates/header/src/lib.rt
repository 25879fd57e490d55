// The run header: ten bytes, and the fields in them. `form` reads the bytes, those of archived headers too.
#![tactic(auto)]

pub mod form;

// The header's fields, with their letters in the comments.
#[derive(Clone, Copy)]
pub struct Fields {
    // 0 for 1/3, 1 for 1/2, 2 for 2/3
    pub rate: u64,
    // m, the bits of a symbol
    pub bits: usize,
    // N
    pub rows: usize,
    // B
    pub step: usize,
    // F, the bytes of a frame
    pub size: usize,
    // W
    pub markers: usize,
    // A
    pub frames: usize,
    // the factor: how many times each symbol is sent
    pub copies: usize,
}
