// The constraint that the comparison at a place is read as, in a line.
ghost use Rattle.std.specs.Prelude.{◌≡◌, cond, ◌≤◌, length};
ghost use Rattle.std.proofs.Math.Option.{some};
ghost use Rattle.rules_types.specs.Limits.{rationals};
ghost use Rattle.rules.specs.Problem.{relation_of};
ghost use Rattle.rules.specs.Readings.{is_strict};
ghost use Rattle.problem_scan.specs.Values.{behind, constraint_at};
ghost use Rattle.problem_scan.specs.Sound.{SoundComparison};
ghost use Rattle.lines.specs.Line.{meaning, Ready};
ghost use Rattle.problem_parts.specs.Constraint.{line_of, read_row, turned_line};

use fields::amount_at;
use lines::line::Line;
use machine::sign::signed;
use problem_clauses::constraint::written_bound;
use problem_scan::relation::{is_strict, turns};
use rows::turned::turned;
use rules_types::layout::COMPARISON_COEFFICIENTS;
use rules_types::limits::Limits;

// So many coefficients, and 0 from there on.
fn row(input: &[u8], from: usize, count: u8) -> [i64; Limits::RATIONALS]
    requires count_le_rationals { count ≤ rationals }
    requires from_in_bounds { behind 4 count from ≤ length input.now }
    ensures { result ≡ read_row input.now from count }
{
    let n = count as usize;
    let mut out = [0 as i64; Limits::RATIONALS];
    let mut at = from;
    let mut i = 0;
    while i < n {
        out[i] = amount_at(input, at);
        at += 4;
        i += 1;
    }
    out
}

// A line's relation byte.
fn relation_of(code: u8) -> u8
    ensures { result ≡ cond (is_strict (relation_of code)) 2 1 }
{
    if is_strict(code) {
        return 2;
    }
    1
}

// With all signs turned.
fn turned_line(line: Line) -> Line
    requires { Ready line }
    ensures { result ≡ turned_line line }
{
    let row = line.coefficients;
    let coefficients = turned(row);
    Line {
        positive: line.positive,
        negative: line.negative,
        relation: line.relation,
        coefficients: coefficients,
        bound: signed(true, line.bound),
    }
}

// With these sets of Boolean variables.
pub fn constraint_line(
    input: &[u8],
    at: usize,
    r: u8,
    second: bool,
    positive: u32,
    negative: u32,
) -> Line
    requires r_le_rationals { r ≤ rationals }
    requires sound_comparison { SoundComparison input.now r at }
    ensures result_value { meaning result ≡ line_of positive negative (some (constraint_at input.now second r at)) }
    ensures ready { Ready result }
{
    let code = input[at];
    let coefficients = row(input, at + COMPARISON_COEFFICIENTS, r);
    let bound = written_bound(input, at, r);
    let line = Line {
        positive: positive,
        negative: negative,
        relation: relation_of(code),
        coefficients: coefficients,
        bound: bound,
    };
    if turns(second, code) {
        return turned_line(line);
    }
    line
}
