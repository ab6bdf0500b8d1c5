// "A converter keeps a figure if some clause without literals has as its sole condition a negative multiple of this figure alone, written
// with relation 1 or 2 and a bound of at most 0."
ghost use Rattle.std.specs.Prelude.{◌≡◌, ◌+◌, ◌≤◌, pos, length};
ghost use Rattle.std.specs.Int.Signed.{le_z};
ghost use Rattle.rules_types.specs.Limits.{rationals};
ghost use Rattle.rules_types.specs.Layout.{comparison_bytes};
ghost use Rattle.rules.specs.Bytes.{from_unsigned};
ghost use Rattle.rules.specs.Problem.{relation_of};
ghost use Rattle.rules.specs.Convert.{is_upper, kept};
ghost use Rattle.problem_scan.specs.Values.{clause_end};
ghost use Rattle.problem_read.specs.Parsed.{all_clauses, problem_at};
ghost use Rattle.problem_read.specs.Readable.{Readable};
ghost use Rattle.kept_rationals.specs.Clause.{BoundsOnly, KeepsOnly};
ghost use Rattle.kept_rationals.specs.Kept.{inside, Joined};
ghost use Rattle.theory_conversion.specs.Length.{comparisons_in};

use crate::alone::alone;
use fields::u32_at;
use masks::with;
use problem_clauses::places::{count_place, next};
use problem_scan::cursor::Sizes;
use rules_types::layout::{COMPARISON_COEFFICIENTS, FIRST_CLAUSE, comparison_bound};

// A mask of the variables that are kept, and how many comparisons the clauses have.
#[derive(Clone, Copy)]
pub struct Kept {
    pub mask: u32,
    pub comparisons: usize,
}

// "relation 1 or 2", of those that reading lets pass
fn is_upper(code: u8) -> bool
    ensures { result ≡ is_upper (relation_of code) }
{
    if code == 3 {
        return false;
    }
    code != 4
}

// "a bound of at most 0", by its 32 bits
fn at_most_zero(n: u64) -> bool
    ensures { result ≡ le_z (from_unsigned n) (pos 0) }
{
    if n == 0 {
        return true;
    }
    2147483648 <= n
}

// The variable that the comparison at a place bounds, as its clause's sole one; r if it bounds none.
fn bounded_by(input: &[u8], at: usize, r: u8) -> u8
    requires { at + comparison_bytes r ≤ length input.now }
    ensures { BoundsOnly input.now r at result }
{
    if !is_upper(input[at]) {
        return r;
    }
    if !at_most_zero(u32_at(input, at + comparison_bound(r))) {
        return r;
    }
    alone(input, at + COMPARISON_COEFFICIENTS, r)
}

// The variable that a clause keeps; r if it keeps none.
fn kept_by(input: &[u8], at: usize, r: u8) -> u8
    requires { clause_end input.now r at ≤ length input.now }
    ensures { KeepsOnly input.now r at result }
{
    if input[at] != 0 {
        return r;
    }
    let place = count_place(input, at);
    if input[place] != 1 {
        return r;
    }
    bounded_by(input, place + 1, r)
}

// With one variable more, unless it is none.
fn joined(mask: u32, v: u8, r: u8) -> u32
    requires { r ≤ rationals }
    ensures { Joined mask v r result }
{
    if v < r {
        return with(mask, v as usize);
    }
    mask
}

// Of all clauses.
pub fn gather(input: &[u8], sizes: Sizes) -> Kept
    requires { Readable input.now sizes }
    ensures mask { inside result.mask ≡ kept (problem_at input.now sizes) }
    ensures comparisons { result.comparisons ≡ comparisons_in (all_clauses input.now sizes) }
    ensures few { result.comparisons ≤ 65280 }
{
    let mut mask: u32 = 0;
    let mut comparisons: usize = 0;
    let mut at = FIRST_CLAUSE;
    let mut left = sizes.clauses;
    while 0 < left {
        let one = kept_by(input, at, sizes.rationals);
        mask = joined(mask, one, sizes.rationals);
        comparisons += input[count_place(input, at)] as usize;
        at = next(input, at, sizes.rationals);
        left -= 1;
    }
    Kept {
        mask: mask,
        comparisons: comparisons,
    }
}
