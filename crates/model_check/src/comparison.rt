// Whether a comparison holds, as it is written: "compares the sum of coefficient × numerator with bound × denominator".
ghost use Rattle.std.specs.Prelude.{◌≡◌, ◌+◌, ◌≤◌, length};
ghost use Rattle.rules_types.specs.Limits.{rationals};
ghost use Rattle.rules.specs.Arithmetic.{sum};
ghost use Rattle.rules.specs.Problem.{relation_of};
ghost use Rattle.rules.specs.Meaning.{compared, comparison_holds};
ghost use Rattle.theory_vectors.specs.Amounts.{Amounts};
ghost use Rattle.problem_scan.specs.Values.{values_at, behind, amount_at, comparison_at};
ghost use Rattle.problem_scan.specs.Sound.{Each, Amount, SoundComparison};
ghost use Rattle.models.specs.Model.{assignment, value};

use fields::amount_at;
use models::model::Model;
use problem_clauses::constraint::written_bound;
use rows::product::{plus_product, scaled};
use rules_types::layout::COMPARISON_COEFFICIENTS;
use rules_types::limits::Limits;

// Of so many coefficients.
fn sum(input: &[u8], from: usize, count: u8, numerators: [i64; Limits::RATIONALS]) -> i64
    requires count_le_rationals { count ≤ rationals }
    requires from_in_bounds { behind 4 count from ≤ length input.now }
    requires each { Each (Amount input.now) 4 count from }
    requires amounts { Amounts numerators }
    ensures { result ≡ sum (values_at (amount_at input.now) 4 count from) (value numerators) }
{
    let mut total = 0;
    for i in 0..count as usize {
        total = plus_product(total, amount_at(input, from + i * 4), numerators[i]);
    }
    total
}

// "Relation 3 shall mean =, 4 ≥"
#[tactic(auto, unfolding(rules::specs::Problem::relation_of, rules::specs::Meaning::compared))]
fn compared(code: u8, a: i64, b: i64) -> bool
    ensures { result ≡ compared (relation_of code) a b }
{
    match code {
        2 => a < b,
        3 => a == b,
        4 => b <= a,
        _ => a <= b,
    }
}

pub fn comparison_holds(input: &[u8], at: usize, r: u8, model: Model) -> bool
    requires r_le_rationals { r ≤ rationals }
    requires sound_comparison { SoundComparison input.now r at }
    requires amounts { Amounts model.numerators }
    ensures { result ≡ comparison_holds (assignment model) (comparison_at input.now r at) }
{
    let s = sum(input, at + COMPARISON_COEFFICIENTS, r, model.numerators);
    let b = scaled(written_bound(input, at, r), model.denominator);
    compared(input[at], s, b)
}
