// The constraints that normalizing strikes out, passed over.
ghost use Rattle.std.specs.Prelude.{◌≡◌, not, ◌+◌, ◌<◌};
ghost use Rattle.rules_types.specs.Layout.{comparison_bytes};
ghost use Rattle.rules.specs.Lists.{all};
ghost use Rattle.rules.specs.Arithmetic.{is_zero};
ghost use Rattle.rules.specs.Normalize.{settled_all};
ghost use Rattle.problem_clauses.specs.declared.splits.Staying.TheVariants.{Count};
ghost use Rattle.problem_clauses.specs.Remaining.{counted};
ghost use Rattle.problem_scan.specs.Values.{constraint_at, constraints_at};
ghost use Rattle.problem_scan.specs.Sound.{Each, SoundComparison};
ghost use Rattle.problem_parts.specs.Skip.{Skipped};

use problem_clauses::splits::{settled, weight};
use rules_types::layout::comparison_bytes;

// Constraints that stand one behind another: the place of the first, and how many there are.
#[derive(Clone, Copy)]
pub struct ConstraintsAt {
    pub at: usize,
    pub left: u8,
}

fn stays(input: &[u8], at: usize, r: u8, second: bool) -> bool
    requires { SoundComparison input.now r at }
    ensures { result ≡ not (all is_zero (constraint_at input.now second r at).coefficients) }
{
    weight(settled(input, at, r, second)) == 1
}

// The first of so many constraints that stays, where some do.
pub fn skip(input: &[u8], from: usize, r: u8, second: bool, count: u8, stay: u8) -> ConstraintsAt
    requires each { Each (SoundComparison input.now r) (comparison_bytes r) count from }
    requires from_value { counted 0 (settled_all (constraints_at input.now second r count from)) ≡ Count stay }
    requires stay_nonzero { 0 < stay }
    ensures { Skipped input.now second r from count result }
{
    let size = comparison_bytes(r);
    let mut at = from;
    let mut left = count;
    while !stays(input, at, r, second) {
        at += size;
        left -= 1;
    }
    ConstraintsAt { at: at, left: left }
}
