// What the customer is promised, one function for each demand or card: its contract is what is promised, and it does nothing. The statements are in the
// crates whose names begin with `promises_`, by subject, each beside its theorem.
#![tactic(auto)]

ghost use Rattle.promises_terms.specs.Terms.{Terms};
ghost use Rattle.promises_terms.specs.Answers.{Answers};
ghost use Rattle.promises_headers.specs.Questions.{Questions};
ghost use Rattle.promises_calls.specs.Demand1.{Demand1};
ghost use Rattle.promises_runs.specs.Demand2.{Demand2};
ghost use Rattle.promises_words.specs.Demand3.{Demand3};
ghost use Rattle.promises_runs.specs.Card1.{Card1};
ghost use Rattle.promises_words.specs.Card2.{Card2};
ghost use Rattle.promises_words.specs.Card3.{Card3};
ghost use Rattle.promises_words.specs.Card4.{Card4};
ghost use Rattle.promises_runs.specs.Card5.{Card5};
ghost use Rattle.promises_headers.specs.Card6.{Card6};
ghost use Rattle.promises_calls.specs.HeaderRefusals.{HeaderRefusals};
ghost use Rattle.promises_words.specs.Card7.{Card7};
ghost use Rattle.promises_fades.specs.Card8.{Card8};
ghost use Rattle.promises_calls.specs.Card9.{Card9};
ghost use Rattle.promises_rack.specs.Card10.{Card10};
ghost use Rattle.promises_calls.specs.Card11.{Card11};
ghost use Rattle.promises_words.specs.Card12.{Card12};
ghost use Rattle.promises_words.specs.Card13.{Card13};
ghost use Rattle.promises_uplink.specs.Card14.{Card14};
ghost use Rattle.promises_runs.specs.FindFrom.{FindFrom};
ghost use Rattle.promises_headers.specs.Edges.{Edges};
ghost use Rattle.promises_runs.specs.Places.{Places};
ghost use Rattle.promises_sheet.specs.Runsheet.{Runsheet};

// The meaning of the terms in which the others speak of bits, bytes and lists.
pub fn terms()
    ensures { Terms }
{}

// What is refused, by which number, and that a refused call changes no lent byte.
pub fn demand_1()
    ensures { Answers × Questions × Demand1 }
{}

// Writing and reading undo each other, for runs and for single words.
pub fn demand_2()
    ensures { Demand2 }
{}

// Sums, distances and flips of words.
pub fn demand_3()
    ensures { Demand3 }
{}

// The search for the earliest whole marker in a capture, and the run's slots from there, packed anew.
pub fn card_1()
    ensures { Card1 }
{}

// 36 constants in place of the square term of step 5.
pub fn card_2()
    ensures { Card2 }
{}

// The published order of the steps: the randomizer first, and frames marked with 1ACFFC1D.
pub fn card_3()
    ensures { Card3 }
{}

// Up to 211 blocks of one rate in one call.
pub fn card_4()
    ensures { Card4 }
{}

// Each symbol sent several times in a row, and its copies pooled.
pub fn card_5()
    ensures { Card5 }
{}

// The factor in the header, and the trips between headers of eight and of ten bytes.
pub fn card_6()
    ensures { Card6 × HeaderRefusals }
{}

// The spare bits of a packed block disregarded.
pub fn card_7()
    ensures { Card7 }
{}

// What fades do to the words of a run, and how far the spreading sets neighbours apart.
pub fn card_8()
    ensures { Card8 }
{}

// Fewer than k fill bits, and no number 17.
pub fn card_9()
    ensures { Card9 }
{}

// Whose run it is: the rack of headers, and what a mission is told.
pub fn card_10()
    ensures { Card10 }
{}

// Step 9 a symbol at a time, over a lent area, and back.
pub fn card_11()
    ensures { Card11 }
{}

// What the check field adds: differences and flips within 32 consecutive bits.
pub fn card_12()
    ensures { Card12 }
{}

// How far one wrong bit spreads.
pub fn card_13()
    ensures { Card13 }
{}

// The uplink: its code, its slots, its questions, and there and back.
pub fn card_14()
    ensures { Card14 }
{}

// The search from a given slot on, which no card names.
pub fn find_from()
    ensures { FindFrom }
{}

// Questions 1 to 8 and 20 at their edges, in figures.
pub fn edges()
    ensures { Edges }
{}

// Which place each refusal has.
pub fn places()
    ensures { Places }
{}

// The line that `runsheet` prints: `no` and a number, or what a run with the header holds, in this order.
pub fn runsheet_line()
    ensures { Runsheet }
{}
