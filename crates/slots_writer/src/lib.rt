// Steps 8 to 10: the words' symbols, spread by the channel interleaver, with markers before every line, as slots with one pulse to a symbol, each symbol sent as often as the factor says.
#![tactic(auto)]

ghost use Rattle.std.specs.Prelude.{◌≡◌, ◌+◌, ◌*◌, ◌<◌};
ghost use Rattle.bits.specs.Pack.{piece};
ghost use Rattle.channel.specs.Channel.{unit};
ghost use Rattle.sizes.specs.Sizes.{word_bytes};
ghost use Rattle.slots.specs.Writing.{run_slots};
ghost use Rattle.slots.specs.Inner.{Given, Lent};
ghost use Rattle.slots_moves.specs.Inner.{Holds, front, Zeros};
ghost use Rattle.slots_lines.specs.Inner.{line_end};

use plan::Plan;

// A line with its markers. Its zeros are laid here, so that they are still in the cache when the pulses are moved.
fn put_line(p: Plan, words: &[u8], zeros: &[u8], line: usize, slots: &mut [u8])
    requires { Given p words.now × Zeros p.group zeros.now × (line < p.layout.lines) × Holds p (front p (piece word_bytes words.now) (line * unit p.layout)) (line_end p line) slots.old }
    ensures { Holds p (front p (piece word_bytes words.now) ((line + 1) * unit p.layout)) (line_end p (line + 1)) slots.new }
{
    let unit = p.layout.symbols + p.layout.markers;
    let copies = p.copies;
    let group = p.group;
    let from = (line * unit * copies * group).div_ceil(8);
    let to = ((line + 1) * unit * copies * group).div_ceil(8);
    slots_moves::lay_zeros(zeros, slots, from, to);
    slots_lines::put_marks(p, line, slots);
    slots_rows::put_symbols(p, words, line, slots);
}

fn put_lines(p: Plan, words: &[u8], zeros: &[u8], slots: &mut [u8])
    requires { Lent p words.now slots.old × Zeros p.group zeros.now }
    ensures { Holds p (front p (piece word_bytes words.now) (p.layout.lines * unit p.layout)) (line_end p p.layout.lines) slots.new }
{
    for line in 0..p.layout.lines {
        put_line(p, words, zeros, line, slots);
    }
}

// Steps 8 to 10: the slots of words that lie back to back.
pub fn write(p: Plan, words: &[u8], slots: &mut [u8])
    requires { Lent p words.now slots.old }
    ensures { slots.new ≡ run_slots p (piece word_bytes words.now) }
{
    let group = p.group;
    let end = p.layout.lines * (p.layout.symbols + p.layout.markers) * p.copies * group;
    let mut zeros = [0u8; 16000];
    slots_moves::fill_zeros(group, &mut zeros);
    put_lines(p, words, &zeros, slots);
    bits::change::clear_spare(slots, end);
}
