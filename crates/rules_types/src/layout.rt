// Where each field stands in the bytes of a problem, a step and a model (specs/Layout.antt): the one place that has these numbers.
ghost use Rattle.std.specs.Prelude.{◌≡◌};
ghost use Rattle.rules_types.specs.Layout.{comparison_bound, comparison_bytes, model_rationals, model_denominator, model_numerators};

// Of a problem: b, r and n, then the clauses. Of a comparison, behind its relation: the coefficients.
pub const PROBLEM_BOOLEANS: usize = 0;

pub const PROBLEM_RATIONALS: usize = 1;

pub const PROBLEM_CLAUSES: usize = 2;

pub const FIRST_CLAUSE: usize = 4;

pub const COMPARISON_COEFFICIENTS: usize = 1;

// Of a step: its origin, then its line.
pub const STEP_HOW: usize = 0;

pub const STEP_WHICH: usize = 1;

pub const STEP_FIRST: usize = 2;

pub const STEP_SECOND: usize = 4;

pub const STEP_RELATION: usize = 6;

pub const STEP_POSITIVE: usize = 8;

pub const STEP_NEGATIVE: usize = 12;

pub const STEP_COEFFICIENTS: usize = 16;

pub const STEP_BOUND: usize = 48;

// Of a model: b, and a byte for each Boolean variable.
pub const MODEL_BOOLEANS: usize = 0;

pub const MODEL_FLAGS: usize = 1;

// Of a comparison with r coefficients: its bound.
pub fn comparison_bound(r: u8) -> usize
    ensures { result ≡ comparison_bound r }
{
    1 + (r as usize) * 4
}

// All bytes of such a comparison.
pub fn comparison_bytes(r: u8) -> usize
    ensures { result ≡ comparison_bytes r }
{
    5 + (r as usize) * 4
}

// Of a model with b Boolean variables: r, the denominator, the numerators.
pub fn model_rationals(b: u8) -> usize
    ensures { result ≡ model_rationals b }
{
    1 + b as usize
}

pub fn model_denominator(b: u8) -> usize
    ensures { result ≡ model_denominator b }
{
    2 + b as usize
}

pub fn model_numerators(b: u8) -> usize
    ensures { result ≡ model_numerators b }
{
    6 + b as usize
}
