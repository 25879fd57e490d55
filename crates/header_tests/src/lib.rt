// Questions 1 to 7 and 20 one by one, of a header or its fields: yes or no. Those that look alike are apart, as the papers ask them.
#![tactic(auto)]

ghost use Rattle.std.specs.Prelude.{◌≡◌};
ghost use Rattle.header_questions.specs.Questions as asked;
ghost use Rattle.header_sizes.specs.Inner.{Shaped};

use header::{Fields, form};

// Whether x is one of the numbers least to most.
fn within(least: usize, x: usize, most: usize) -> bool
    ensures { result ≡ asked.within least x most }
{
    least <= x && x <= most
}

#[tactic(auto, unfolding(header_questions::specs::Questions::question1))]
pub fn question1(header: &[u8]) -> bool
    ensures { result ≡ asked.question1 header.now }
{
    header.len() == 10 && form::spare(header) == 0
}

#[tactic(auto, unfolding(header_questions::specs::Questions::old_question1))]
pub fn old_question1(old: &[u8]) -> bool
    ensures { result ≡ asked.old_question1 old.now }
{
    old.len() == 8 && form::old_spare(old) == 0
}

#[tactic(auto, unfolding(header_questions::specs::Questions::question2))]
pub fn question2(f: Fields) -> bool
    ensures { result ≡ asked.question2 f }
{
    f.rate < 3
}

#[tactic(auto, unfolding(header_questions::specs::Questions::question3))]
pub fn question3(f: Fields) -> bool
    ensures { result ≡ asked.question3 f }
{
    within(2, f.bits, 8)
}

#[tactic(auto, unfolding(header_questions::specs::Questions::question4))]
pub fn question4(f: Fields) -> bool
    ensures { result ≡ asked.question4 f }
{
    within(1, f.rows, 128) && within(1, f.step, 256)
}

pub fn question5(f: Fields) -> bool
    requires { Shaped f }
    ensures { result ≡ asked.question5 f }
{
    header_sizes::interleaver_delay(f) % header_sizes::symbols_per_word(f) == 0
}

#[tactic(auto, unfolding(header_questions::specs::Questions::question6))]
pub fn question6(f: Fields) -> bool
    ensures { result ≡ asked.question6 f }
{
    within(1, f.size, 2048) && within(1, f.frames, 64)
}

#[tactic(auto, unfolding(header_questions::specs::Questions::question7))]
pub fn question7(f: Fields) -> bool
    ensures { result ≡ asked.question7 f }
{
    within(1, f.markers, 32)
}

#[tactic(auto, unfolding(header_questions::specs::Questions::copies_good))]
pub fn question20(f: Fields) -> bool
    ensures { result ≡ asked.question20 f }
{
    matches!(f.copies, 1..=4 | 8 | 16 | 32)
}
