// Amounts and comparisons: each function comes to what the definition of reading does from its place on.
ghost use Rattle.std.specs.Prelude.{◌≡◌, false, ◌≤◌, length, drop};
ghost use Rattle.rules.specs.Problem.{repeat, amount, comparison, comparisons};
ghost use Rattle.problem_scan.specs.Seen.{seen};

use crate::cursor::Cursor;
use crate::relation::{is_equality, is_relation};
use fields::amount_at;
use machine::sign::in_range;
use rules_types::answers::Refusal;
use rules_types::layout::COMPARISON_COEFFICIENTS;

fn amount(input: &[u8], at: usize) -> Cursor
    requires { at ≤ length input.now }
    ensures { result ≡ seen (amount Refusal.Amount (drop at input.now) at) }
{
    if input.len() - at < 4 {
        return Cursor::Fault(Refusal::Truncated, input.len());
    }
    if in_range(amount_at(input, at)) {
        return Cursor::Next(at + 4);
    }
    Cursor::Fault(Refusal::Amount, at)
}

// So many of them.
fn amounts(input: &[u8], from: usize, count: u8) -> Cursor
    requires { from ≤ length input.now }
    ensures { result ≡ seen (repeat count (amount Refusal.Amount) (drop from input.now) from) }
{
    let mut at = from;
    let mut left = count;
    while 0 < left {
        let one = amount(input, at);
        let Cursor::Next(next) = one else {
            return one;
        };
        at = next;
        left -= 1;
    }
    Cursor::Next(at)
}

// The bytes of a comparison: its relation, r coefficients and the bound. 18: "a second = in one clause, raised at its relation byte
// right after 10"; `equated` says that an = stands before it.
fn comparison(input: &[u8], at: usize, r: u8, equated: bool) -> Cursor
    requires { at ≤ length input.now }
    ensures { result ≡ seen (comparison equated r (drop at input.now) at) }
{
    if input.len() <= at {
        return Cursor::Fault(Refusal::Truncated, input.len());
    }
    let relation = input[at];
    if !is_relation(relation) {
        return Cursor::Fault(Refusal::Relation, at);
    }
    if equated && is_equality(relation) {
        return Cursor::Fault(Refusal::SecondEquality, at);
    }
    let coefficients = amounts(input, at + COMPARISON_COEFFICIENTS, r);
    let Cursor::Next(bound) = coefficients else {
        return coefficients;
    };
    amount(input, bound)
}

// So many of them, all of a clause.
pub fn comparisons(input: &[u8], from: usize, r: u8, count: u8) -> Cursor
    requires { from ≤ length input.now }
    ensures { result ≡ seen (comparisons count false r (drop from input.now) from) }
{
    let mut at = from;
    let mut left = count;
    let mut equated = false;
    while 0 < left {
        let one = comparison(input, at, r, equated);
        let Cursor::Next(next) = one else {
            return one;
        };
        equated = equated || is_equality(input[at]);
        at = next;
        left -= 1;
    }
    Cursor::Next(at)
}
