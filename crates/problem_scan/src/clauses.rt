// Literals and clauses: each function comes to what the definition of reading does from its place on.
ghost use Rattle.std.specs.Prelude.{◌≡◌, ◌≤◌, length, drop};
ghost use Rattle.rules.specs.Problem.{repeat, literal, clause};
ghost use Rattle.problem_scan.specs.Seen.{seen};
ghost use Rattle.problem_scan.specs.Clauses.{comparison_list, clauses_of};

use crate::cursor::{Cursor, Sizes};
use crate::numbers::comparisons;
use rules_types::answers::Refusal;
use rules_types::limits::Limits;

// So many literals: "mark not below b; its byte".
fn literals(input: &[u8], from: usize, b: u8, count: u8) -> Cursor
    requires { from ≤ length input.now }
    ensures { result ≡ seen (repeat count (literal b) (drop from input.now) from) }
{
    let mut at = from;
    let mut left = count;
    while 0 < left {
        if input.len() <= at {
            return Cursor::Fault(Refusal::Truncated, input.len());
        }
        if b <= input[at] % 128 {
            return Cursor::Fault(Refusal::Literal, at);
        }
        at += 1;
        left -= 1;
    }
    Cursor::Next(at)
}

// "a byte t, 0 to 8, then t conditions"
fn comparison_list(input: &[u8], at: usize, r: u8) -> Cursor
    requires { at ≤ length input.now }
    ensures { result ≡ seen (comparison_list r (drop at input.now) at) }
{
    if input.len() <= at {
        return Cursor::Fault(Refusal::Truncated, input.len());
    }
    let count = input[at];
    if Limits::COMPARISONS < count as usize {
        return Cursor::Fault(Refusal::Comparisons, at);
    }
    comparisons(input, at + 1, r, count)
}

// "a byte m, 0 to 32, then m literals", and the comparisons
fn clause(input: &[u8], at: usize, b: u8, r: u8) -> Cursor
    requires { at ≤ length input.now }
    ensures { result ≡ seen (clause b r (drop at input.now) at) }
{
    if input.len() <= at {
        return Cursor::Fault(Refusal::Truncated, input.len());
    }
    let count = input[at];
    if Limits::LITERALS < count as usize {
        return Cursor::Fault(Refusal::Literal, at);
    }
    let read = literals(input, at + 1, b, count);
    let Cursor::Next(next) = read else {
        return read;
    };
    comparison_list(input, next, r)
}

// All clauses of a problem of these sizes.
pub fn clauses(input: &[u8], from: usize, sizes: Sizes) -> Cursor
    requires { from ≤ length input.now }
    ensures { result ≡ seen (clauses_of sizes (drop from input.now) from) }
{
    let mut at = from;
    let mut left = sizes.clauses;
    while 0 < left {
        let one = clause(input, at, sizes.booleans, sizes.rationals);
        let Cursor::Next(next) = one else {
            return one;
        };
        at = next;
        left -= 1;
    }
    Cursor::Next(at)
}
