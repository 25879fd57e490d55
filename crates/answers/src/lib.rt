// What every call answers: `Ok`, or a refusal: what the first question answered no was about, and its place.
#![tactic(auto)]

ghost use Rattle.std.specs.Prelude.{◌≡◌};
ghost use Rattle.answers.specs.Answer as words;
ghost use Rattle.answers.specs.Inner.{number, answer_of, code_given, Fits, FitsGiven};

// What is wrong where a question is answered no. Names and numbers are those of mahyrei.h.
#[derive(Clone, Copy, Debug, PartialEq, Eq)]
pub enum Fault {
    BadHeader = 1,
    BadRate = 2,
    BadOrder = 3,
    BadRows = 4,
    BadFit = 5,
    BadFrames = 6,
    BadMarker = 7,
    BadLength = 8,
    BadSpare = 9,
    BadPulse = 10,
    WrongMarker = 11,
    BadIdle = 12,
    BadCode = 13,
    BadTermination = 14,
    BadCheck = 15,
    BadFrameMarker = 16,
    BadFill = 18,
    NoMarker = 19,
    BadCopies = 20,
    NoOldHeader = 21,
    BadFades = 22,
    BadMission = 23,
    BadPlace = 24,
    ClosedPlace = 25,
    BadSymbol = 26,
    BadBit = 27,
    BadGroup = 28,
    BadParity = 29,
}

impl Fault {
    pub fn number(self) -> u64
        ensures { result ≡ number self }
    {
        self as u64
    }

    // A refusal at a place.
    pub fn at(self, place: usize) -> Refusal
        ensures { result ≡ record { fault = self; place = place } }
    {
        Refusal { fault: self, place }
    }
}

#[derive(Clone, Copy, Debug, PartialEq, Eq)]
pub struct Refusal {
    pub fault: Fault,
    pub place: usize,
}

impl Refusal {
    // A refusal of one piece among several: the piece is the place.
    pub fn moved_to(self, piece: usize) -> Refusal
        ensures { result ≡ record { fault = self.fault; place = piece } }
    {
        self.fault.at(piece)
    }
}

// One question that has no place.
pub fn ask(yes: bool, fault: Fault) -> Result<(), Refusal>
    ensures { answer_of result ≡ words.ask yes (number fault) 0 }
{
    if yes { Ok(()) } else { Err(fault.at(0)) }
}

// An answer as C gets it: 0, or place × 256 + number.
pub fn code(answer: Result<(), Refusal>) -> u64
    requires { Fits (answer_of answer) }
    ensures { result ≡ words.code_of (answer_of answer) }
{
    code_with(answer.map(|_| 0))
}

// The same where an acceptance gives a number: given × 256.
pub fn code_with(answer: Result<usize, Refusal>) -> u64
    requires { FitsGiven answer }
    ensures { result ≡ code_given answer }
{
    match answer {
        Ok(given) => (given as u64) << 8,
        Err(refusal) => ((refusal.place as u64) << 8) | refusal.fault.number(),
    }
}
