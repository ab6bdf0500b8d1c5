// Answers as numbers.
ghost use Rattle.std.specs.Prelude.{◌≡◌};
ghost use Rattle.rules_types.specs.Answers.{verdict_number};
ghost use Rattle.jemuling.specs.Told.{refused_told, answer_told, checked_told, evidence_told, solved_told};
ghost use Rattle.jemuling.specs.Told.{converted_told, carried_told, trimmed_told};

use rules_types::answers::{
    Answer, Carried, Checked, Converted, Evidence, Refusal, Solved, Trimmed, Verdict,
};

// An answer's number and value.
#[repr(C)]
#[derive(Clone, Copy)]
pub struct Told {
    pub number: u64,
    pub value: usize,
}

// The same of solving, with the pairs tried.
#[repr(C)]
#[derive(Clone, Copy)]
pub struct SolvedTold {
    pub number: u64,
    pub value: usize,
    pub pairs: u64,
}

pub fn verdict_number(v: Verdict) -> u64
    ensures { result ≡ verdict_number v }
{
    match v {
        Verdict::Satisfiable => Verdict::SATISFIABLE,
        Verdict::Unsatisfiable => Verdict::UNSATISFIABLE,
        Verdict::Unwritten => Verdict::UNWRITTEN,
    }
}

// A refusal, by its number and its place.
fn refused_told(f: Refusal, place: usize) -> Told
    ensures { result ≡ refused_told f place }
{
    Told {
        number: f.number() as u64,
        value: place,
    }
}

fn answer_told(a: Answer) -> Told
    ensures { result ≡ answer_told a }
{
    match a {
        Answer::Decided(v, steps) => Told {
            number: verdict_number(v),
            value: steps,
        },
        Answer::Refused(f, place) => refused_told(f, place),
    }
}

pub fn solved_told(s: Solved) -> SolvedTold
    ensures { result ≡ solved_told s }
{
    let answer = s.answer;
    let told = answer_told(answer);
    SolvedTold {
        number: told.number,
        value: told.value,
        pairs: s.pairs,
    }
}

pub fn checked_told(c: Checked) -> Told
    ensures { result ≡ checked_told c }
{
    match c {
        Checked::Accepted => Told {
            number: 67,
            value: 0,
        },
        Checked::Fails(n) => Told {
            number: 68,
            value: n,
        },
        Checked::Refused(f, place) => refused_told(f, place),
    }
}

pub fn evidence_told(e: Evidence) -> Told
    ensures { result ≡ evidence_told e }
{
    match e {
        Evidence::OfProof(n) => Told {
            number: 69,
            value: n,
        },
        Evidence::OfModel(n) => Told {
            number: 70,
            value: n,
        },
    }
}

pub fn converted_told(c: Converted) -> Told
    ensures { result ≡ converted_told c }
{
    match c {
        Converted::Length(n) => Told {
            number: 71,
            value: n,
        },
        Converted::Refused(f, place) => refused_told(f, place),
    }
}

pub fn carried_told(c: Carried) -> Told
    ensures { result ≡ carried_told c }
{
    match c {
        Carried::Done => Told {
            number: 72,
            value: 0,
        },
        Carried::Refused(f, place) => refused_told(f, place),
    }
}

pub fn trimmed_told(t: Trimmed) -> Told
    ensures { result ≡ trimmed_told t }
{
    match t {
        Trimmed::Steps(n) => Told {
            number: 73,
            value: n,
        },
        Trimmed::Fails(n) => checked_told(Checked::Fails(n)),
        Trimmed::Refused(f, place) => refused_told(f, place),
    }
}
