// Questions 10 and 12 in one sweep over the slots, and the words in them. Forty bytes hold whole groups, and so
// as many forties as there are copies hold whole symbols: where they are all zeros', both are answered yes, and
// the words stay as they are.
ghost use Rattle.std.specs.Prelude.{◌≡◌, ℕ, ◌+◌, ◌*◌, ◌≤◌, ◌<◌};
ghost use Rattle.bits.specs.Basics.{up_to};
ghost use Rattle.pulses.specs.Inner.{Same};
ghost use Rattle.channel.specs.Channel.{layout_symbols};
ghost use Rattle.slots.specs.Inner.{RunSlots, decided_in};
ghost use Rattle.slots_places.specs.Inner.{Took, Known};
ghost use Rattle.slots_reader.specs.Inner.{Seeks, Parts};
ghost use Rattle.slots.specs.Reading.{first_bad_symbol};

// The first undecided symbol, and the first wrong place as far as it was looked for; the number of symbols
// where there is none.
#[derive(Clone, Copy)]
pub struct Faults {
    pub group: usize,
    pub rest: usize,
}

// The symbols from `from` on up to `to`, and what is known of the places before them.
fn look(p: plan::Plan, b: &[u8], from: usize, to: usize, rest: usize, words: &mut [u8]) -> Faults
    requires { Seeks p b.now from to rest words.old }
    ensures group_value { result.group ≡ up_to (decided_in p b.now) from to }
    ensures known { to ≤ result.group → Known p b.now to result.rest words.new }
{
    let mut row = [0u8; 1024];
    let group = slots_symbols::row_out(p, b, from, to, &mut row);
    if group < to {
        return Faults { group, rest };
    }
    let rest = slots_places::rest_after(p, &row, from, to, rest, words);
    Faults { group, rest }
}

// Forties are taken `copies` at a time. The first such part, from the c-th on, that is not all zeros'; or n.
fn zeros_end(b: &[u8], given: &[u8], copies: usize, c: usize, n: usize) -> usize
    requires { Parts b.now given.now copies c n }
    ensures { (c ≤ result) × (result ≤ n) × ((k : ℕ) → c * copies ≤ k → k < result * copies → Same b.now (40 * k) given.now 40) }
{
    pulses::groups::past_zeros(b, given, c * copies, n * copies) / copies
}

// Where the parts from the c-th on that are not zeros' end: after at most sixteen, which hold fewer symbols than a line.
fn others_end(b: &[u8], given: &[u8], copies: usize, c: usize, n: usize) -> usize
    requires { Parts b.now given.now copies c n × (c < n) }
    ensures { (c < result) × (result ≤ n) × (result ≤ c + 16) }
{
    let end = n.min(c + 16);
    pulses::groups::past_others(b, given, (c + 1) * copies, end * copies) / copies
}

// Questions 10 and 12 of all symbols; 12 only where 10 is answered yes.
pub fn find(p: plan::Plan, b: &[u8], words: &mut [u8]) -> Faults
    requires { RunSlots p b.now × Took p b.now 0 words.old }
    ensures group_value { result.group ≡ first_bad_symbol p b.now }
    ensures known { result.group ≡ layout_symbols p.layout → Known p b.now (layout_symbols p.layout) result.rest words.new }
{
    let n = p.layout.lines * (p.layout.symbols + p.layout.markers);
    let count = 320 / p.group;
    let whole = n / count;
    let given = pulses::groups::zeros(p.group);
    let mut rest = n;
    let copies = p.copies;
    let mut c = zeros_end(b, &given, copies, 0, whole);
    // Not a `for`: c goes on to where the groups that are passed at once stop.
    while c < whole {
        let e = others_end(b, &given, copies, c, whole);
        let f = look(p, b, c * count, e * count, rest, words);
        if f.group < e * count {
            return f;
        }
        rest = f.rest;
        c = zeros_end(b, &given, copies, e, whole);
    }
    let from = whole * count;
    if from < n {
        return look(p, b, from, n, rest, words);
    }
    let group = n;
    Faults { group, rest }
}
