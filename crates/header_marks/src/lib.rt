// The marker symbols that are passed with a header: question 7's second part.
#![tactic(auto)]

ghost use Rattle.std.specs.Prelude.{◌≡◌};
ghost use Rattle.header_questions.specs.Questions.{lent_marks, marks_good};
ghost use Rattle.header_sizes.specs.Inner.{Valid};

use header::Fields;

// How many of the marker symbols are examined: up to the W-th.
#[tactic(auto, unfolding(header_questions::specs::Questions::lent_marks))]
pub fn lent_marks(f: Fields, marker: &[u8]) -> usize
    ensures { result ≡ lent_marks f marker.now }
{
    marker.len().min(f.markers)
}

// 7, its second part: whether each of them is below M.
pub fn marks_good(f: Fields, marker: &[u8]) -> bool
    requires { Valid f }
    ensures { result ≡ marks_good f marker.now }
{
    let n = lent_marks(f, marker);
    let order = header_sizes::pulse_order(f);
    for i in 0..n {
        if order <= marker[i] as usize {
            return false;
        }
    }
    true
}
