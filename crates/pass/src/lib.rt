// A pass: up to 211 packed blocks of one rate, back to back, and their words: the definitions and laws that its writer and its reader rest on, and
// question 8, which both ask.
#![tactic(auto)]

ghost use Rattle.std.specs.Prelude.{◌≡◌, ◌≤◌};
ghost use Rattle.pass.specs.Pass.{pass_lengths_right};

// The most blocks of a pass.
const MOST: usize = 211;

// Question 8: 1 to 211, whole blocks of `size` bytes, and as many whole words.
#[tactic(auto, unfolding(crate::specs::Pass::pass_lengths_right))]
pub fn pass_lengths_right(n: usize, size: usize, blocks_length: usize, words_length: usize) -> bool
    requires { size ≤ 1256 }
    ensures { result ≡ pass_lengths_right n size blocks_length words_length }
{
    1 <= n && n <= MOST && blocks_length == n * size && words_length == n * sizes::WORD_BYTES
}
