// A clause's places in the problem's bytes: that of its count of comparisons, and that of the clause behind it.
ghost use Rattle.std.specs.Prelude.{◌≡◌, ◌≤◌, ◌<◌, length};
ghost use Rattle.problem_scan.specs.Values.{count_of, clause_end};

use rules_types::layout::comparison_bytes;

pub fn count_place(input: &[u8], at: usize) -> usize
    requires { count_of input.now at < length input.now }
    ensures { result ≡ count_of input.now at }
{
    at + 1 + input[at] as usize
}

// The place behind a clause.
pub fn next(input: &[u8], at: usize, r: u8) -> usize
    requires { clause_end input.now r at ≤ length input.now }
    ensures { result ≡ clause_end input.now r at }
{
    let place = count_place(input, at);
    place + 1 + (input[place] as usize) * comparison_bytes(r)
}
