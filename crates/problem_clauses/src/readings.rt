// Whether a clause is read once or twice: "A clause with one = is read as two".
ghost use Rattle.std.specs.Prelude.{◌≡◌, ◌≤◌, length};
ghost use Rattle.rules_types.specs.Layout.{comparison_bytes};
ghost use Rattle.rules.specs.Readings.{has_equality};
ghost use Rattle.problem_scan.specs.Values.{behind, comparisons_at, clause_at, clause_end};

use crate::places::count_place;
use problem_scan::relation::is_equality;
use rules_types::layout::comparison_bytes;

// Of so many comparisons.
pub fn has_equality(input: &[u8], from: usize, r: u8, count: u8) -> bool
    requires { behind (comparison_bytes r) count from ≤ length input.now }
    ensures { result ≡ has_equality (comparisons_at input.now r count from) }
{
    let size = comparison_bytes(r);
    let mut at = from;
    let mut left = count;
    while 0 < left {
        if is_equality(input[at]) {
            return true;
        }
        at += size;
        left -= 1;
    }
    false
}

pub fn read_twice(input: &[u8], at: usize, r: u8) -> bool
    requires { clause_end input.now r at ≤ length input.now }
    ensures { result ≡ has_equality (clause_at input.now r at).comparisons }
{
    let place = count_place(input, at);
    has_equality(input, place + 1, r, input[place])
}
