// Step 9 a symbol at a time, and back: delay lines, one per row. What they are, and their laws; `delay_rows` and `delay_step` move them.
#![tactic(auto)]

// The writing side delays row i by typeof.i.B turns, the reading side by (N - 1 - i)·B.
#[derive(Clone, Copy)]
pub enum Side {
    Writing,
    Reading,
}
