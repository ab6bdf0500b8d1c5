// The fields of the comparison at a place, and of the constraint that it is read as.
ghost use Rattle.std.specs.Prelude.{◌≡◌, ◌+◌, ◌≤◌, length};
ghost use Rattle.rules_types.specs.Layout.{comparison_bytes};
ghost use Rattle.problem_scan.specs.Values.{comparison_at, constraint_at};

use fields::amount_at;
use machine::sign::signed;
use problem_scan::relation::turns;
use rules_types::layout::comparison_bound;

// As written.
pub fn written_bound(input: &[u8], at: usize, r: u8) -> i64
    requires { at + comparison_bytes r ≤ length input.now }
    ensures { result ≡ (comparison_at input.now r at).bound }
{
    amount_at(input, at + comparison_bound(r))
}

// As read, in the first or in the second reading of the clause.
pub fn bound_of(input: &[u8], at: usize, r: u8, second: bool) -> i64
    requires { at + comparison_bytes r ≤ length input.now }
    ensures { result ≡ (constraint_at input.now second r at).bound }
{
    signed(turns(second, input[at]), written_bound(input, at, r))
}
