// Step 5, the interleaver: word place j takes coded bit 11 j + 210 j² mod 15,120. What it is, and its laws; `interleaver_writer` and
// `interleaver_reader` do it, by columns (see `word_columns`).
#![tactic(auto)]
