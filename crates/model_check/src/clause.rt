// "A clause holds if one literal or condition holds".
ghost use Rattle.std.specs.Prelude.{◌≡◌, ◌+◌, ◌≤◌, length};
ghost use Rattle.rules_types.specs.Limits.{rationals};
ghost use Rattle.rules_types.specs.Layout.{comparison_bytes};
ghost use Rattle.rules.specs.Lists.{any};
ghost use Rattle.rules.specs.Meaning.{literal_holds, comparison_holds, clause_holds};
ghost use Rattle.theory_vectors.specs.Amounts.{Amounts};
ghost use Rattle.problem_scan.specs.Values.{values_at, behind, literal_at, comparisons_at, clause_at};
ghost use Rattle.problem_scan.specs.Sound.{Each, SoundComparison, SoundClause};
ghost use Rattle.models.specs.Model.{assignment};

use crate::comparison::comparison_holds;
use crate::literal::literal_holds;
use models::model::Model;
use problem_clauses::places::count_place;
use rules_types::layout::comparison_bytes;

// Of so many literals.
fn any_literal(input: &[u8], from: usize, count: u8, model: Model) -> bool
    requires { behind 1 count from ≤ length input.now }
    ensures { result ≡ any (literal_holds (assignment model)) (values_at (literal_at input.now) 1 count from) }
{
    for i in 0..count as usize {
        if literal_holds(input[from + i], model) {
            return true;
        }
    }
    false
}

// Of so many comparisons.
fn any_comparison(input: &[u8], from: usize, r: u8, count: u8, model: Model) -> bool
    requires r_le_rationals { r ≤ rationals }
    requires from_in_bounds { behind (comparison_bytes r) count from ≤ length input.now }
    requires each { Each (SoundComparison input.now r) (comparison_bytes r) count from }
    requires amounts { Amounts model.numerators }
    ensures { result ≡ any (comparison_holds (assignment model)) (comparisons_at input.now r count from) }
{
    let size = comparison_bytes(r);
    for i in 0..count as usize {
        if comparison_holds(input, from + i * size, r, model) {
            return true;
        }
    }
    false
}

pub fn clause_holds(input: &[u8], at: usize, r: u8, model: Model) -> bool
    requires r_le_rationals { r ≤ rationals }
    requires sound_clause { SoundClause input.now r at }
    requires amounts { Amounts model.numerators }
    ensures { result ≡ clause_holds (assignment model) (clause_at input.now r at) }
{
    let place = count_place(input, at);
    any_literal(input, at + 1, input[at], model)
        || any_comparison(input, place + 1, r, input[place], model)
}
