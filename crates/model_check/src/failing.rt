// "accepted, or the first clause that fails".
ghost use Rattle.std.specs.Prelude.{◌≡◌, ◌+◌, ◌≤◌};
ghost use Rattle.rules_types.specs.Limits.{rationals, all_clauses};
ghost use Rattle.rules.specs.Lists.{tabulate};
ghost use Rattle.rules.specs.Problem.{non_negative};
ghost use Rattle.rules.specs.Checker.{check_clauses};
ghost use Rattle.theory_vectors.specs.Amounts.{Amounts};
ghost use Rattle.models.specs.Model.{assignment};
ghost use Rattle.problem_read.specs.Clauses.{clauses_at};
ghost use Rattle.problem_scan.specs.Sound.{SoundClauses};

use crate::clause::clause_holds;
use machine::sign::is_negative;
use models::model::Model;
use problem_clauses::places::next;
use rules_types::answers::Checked;

// Of so many clauses, numbered from 0.
pub fn check_clauses(input: &[u8], from: usize, r: u8, count: u64, model: Model) -> Checked
    requires r_le_rationals { r ≤ rationals }
    requires sound_clauses { SoundClauses input.now r count from }
    requires amounts { Amounts model.numerators }
    ensures { result ≡ check_clauses (assignment model) 0 (clauses_at input.now r count from) }
{
    let mut at = from;
    for k in 0..count as usize {
        if !clause_holds(input, at, r, model) {
            return Checked::Fails(k);
        }
        at = next(input, at, r);
    }
    Checked::Accepted
}

// Of so many clauses that the edition adds, numbered from n: "figure 0, 1 and so on is ≥ 0".
pub fn check_added(n: u64, count: u8, model: Model) -> Checked
    requires count_bound { n + count ≤ all_clauses }
    requires count_le_rationals { count ≤ rationals }
    requires amounts { Amounts model.numerators }
    ensures { result ≡ check_clauses (assignment model) n (tabulate count non_negative) }
{
    for f in 0..count as usize {
        if is_negative(model.numerators[f]) {
            return Checked::Fails(n as usize + f);
        }
    }
    Checked::Accepted
}
