// Clauses: "all else is copied".
ghost use Rattle.std.specs.Prelude.{◌+◌, ◌≤◌, length};
ghost use Rattle.rules_types.specs.Limits.{rationals};
ghost use Rattle.problem_scan.specs.Values.{clause_end};
ghost use Rattle.problem_read.specs.Clauses.{clauses_end};
ghost use Rattle.kept_rationals.specs.Kept.{inside};
ghost use Rattle.conversion.specs.Writing.{Wrote};
ghost use Rattle.conversion.specs.Clauses.{split_clause_at, split_clauses_at};

use crate::comparisons::put_comparisons;
use fields::put_bytes;
use problem_clauses::places::{count_place, next};

// The clause at a place, its literals and both counts as they are; the place behind it.
fn put_clause(out: &mut [u8], to: usize, input: &[u8], at: usize, r: u8, mask: u32) -> usize
    requires r_le_rationals { r ≤ rationals }
    requires at_in_bounds { clause_end input.now r at ≤ length input.now }
    requires at_in_bounds_2 { to + length (split_clause_at (inside mask) input.now r at) ≤ length out.old }
    ensures { Wrote out.old to (split_clause_at (inside mask) input.now r at) out.new result }
{
    let place = count_place(input, at);
    let from = place + 1;
    put_bytes(out, to, &input[at..from]);
    put_comparisons(out, to + (from - at), input, from, input[place], r, mask)
}

// So many of them.
pub fn put_clauses(
    out: &mut [u8],
    to: usize,
    input: &[u8],
    from: usize,
    count: u64,
    r: u8,
    mask: u32,
) -> usize
    requires r_le_rationals { r ≤ rationals }
    requires from_in_bounds { clauses_end input.now r count from ≤ length input.now }
    requires from_in_bounds_2 { to + length (split_clauses_at (inside mask) input.now r count from) ≤ length out.old }
    ensures { Wrote out.old to (split_clauses_at (inside mask) input.now r count from) out.new
        result }
{
    let mut end = to;
    let mut at = from;
    let mut left = count;
    while 0 < left {
        end = put_clause(out, end, input, at, r, mask);
        at = next(input, at, r);
        left -= 1;
    }
    end
}
