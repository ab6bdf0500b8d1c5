// The answers of document 01's calls. Each case has a number, stated in specs/Answers.antt, by which C is told.
ghost use Rattle.std.specs.Prelude.{◌≡◌};
ghost use Rattle.rules_types.specs.Answers.{refusal_number};

// A refusal of document 01's table, 1 to 17, or of document 02, from 18 on.
#[derive(Clone, Copy)]
pub enum Refusal {
    ShortProof,
    ShortModel,
    LongProblem,
    Truncated,
    Booleans,
    Rationals,
    Clauses,
    Literal,
    Comparisons,
    Relation,
    Amount,
    Trailing,
    Splits,
    Overflow,
    OutOfSteps,
    ProofLength,
    BadModel,
    SecondEquality,
    Edition,
    SplitRationals,
    OutputSpace,
    CarriedRange,
}

impl Refusal {
    #[tactic(auto, unfolding(crate::specs::Answers::refusal_number))]
    pub fn number(self) -> u8
        ensures { result ≡ refusal_number self }
    {
        match self {
            Refusal::ShortProof => 1,
            Refusal::ShortModel => 2,
            Refusal::LongProblem => 3,
            Refusal::Truncated => 4,
            Refusal::Booleans => 5,
            Refusal::Rationals => 6,
            Refusal::Clauses => 7,
            Refusal::Literal => 8,
            Refusal::Comparisons => 9,
            Refusal::Relation => 10,
            Refusal::Amount => 11,
            Refusal::Trailing => 12,
            Refusal::Splits => 13,
            Refusal::Overflow => 14,
            Refusal::OutOfSteps => 15,
            Refusal::ProofLength => 16,
            Refusal::BadModel => 17,
            Refusal::SecondEquality => 18,
            Refusal::Edition => 19,
            Refusal::SplitRationals => 20,
            Refusal::OutputSpace => 21,
            Refusal::CarriedRange => 22,
        }
    }
}

// What solving found: "agrees", "cannot agree", "unwritten".
#[derive(Clone, Copy)]
pub enum Verdict {
    Satisfiable,
    Unsatisfiable,
    Unwritten,
}

// Their numbers, by which handing back is told what solving found.
impl Verdict {
    pub const SATISFIABLE: u64 = 64;

    pub const UNSATISFIABLE: u64 = 65;

    pub const UNWRITTEN: u64 = 66;
}

// A verdict with the steps of the proof, or a refusal with its place.
#[derive(Clone, Copy)]
pub enum Answer {
    Decided(Verdict, usize),
    Refused(Refusal, usize),
}

// What solving returns: its answer, and the pairs tried.
#[derive(Clone, Copy)]
pub struct Solved {
    pub answer: Answer,
    pub pairs: u64,
}

// What a check returns: accepted, the first step or clause that fails, or a refusal with its place.
#[derive(Clone, Copy)]
pub enum Checked {
    Accepted,
    Fails(usize),
    Refused(Refusal, usize),
}

// What is handed back: the first so many bytes of the lent proof or of the lent model.
#[derive(Clone, Copy)]
pub enum Evidence {
    OfProof(usize),
    OfModel(usize),
}

// What converting returns: the length of the new problem, or a refusal with its place.
#[derive(Clone, Copy)]
pub enum Converted {
    Length(usize),
    Refused(Refusal, usize),
}

// What carrying a model back returns: carried, or a refusal with its place.
#[derive(Clone, Copy)]
pub enum Carried {
    Done,
    Refused(Refusal, usize),
}

// What trimming a proof returns: the steps of the short one, the first step that fails, or a refusal with its place.
#[derive(Clone, Copy)]
pub enum Trimmed {
    Steps(usize),
    Fails(usize),
    Refused(Refusal, usize),
}
