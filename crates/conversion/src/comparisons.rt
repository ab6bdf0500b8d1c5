// Comparisons: "all else is copied".
ghost use Rattle.std.specs.Prelude.{◌+◌, ◌≤◌, length};
ghost use Rattle.rules_types.specs.Limits.{rationals};
ghost use Rattle.rules_types.specs.Layout.{comparison_bytes};
ghost use Rattle.problem_scan.specs.Values.{behind};
ghost use Rattle.kept_rationals.specs.Kept.{inside};
ghost use Rattle.conversion.specs.Writing.{Wrote};
ghost use Rattle.conversion.specs.Comparisons.{split_comparison_at, split_comparisons_at};

use crate::row::put_row;
use fields::{put_u32, u32_at};
use rules_types::layout::{COMPARISON_COEFFICIENTS, comparison_bound, comparison_bytes};

// The comparison at a place; the place behind it.
fn put_comparison(out: &mut [u8], to: usize, input: &[u8], from: usize, r: u8, mask: u32) -> usize
    requires r_le_rationals { r ≤ rationals }
    requires r_in_bounds { from + comparison_bytes r ≤ length input.now }
    requires from_in_bounds { to + length (split_comparison_at (inside mask) input.now r from) ≤ length out.old }
    ensures { Wrote out.old to (split_comparison_at (inside mask) input.now r from) out.new result }
{
    out[to] = input[from];
    let bound = put_row(out, to + 1, input, from + COMPARISON_COEFFICIENTS, r, mask);
    put_u32(out, bound, u32_at(input, from + comparison_bound(r)));
    bound + 4
}

// So many of them.
pub fn put_comparisons(
    out: &mut [u8],
    to: usize,
    input: &[u8],
    from: usize,
    count: u8,
    r: u8,
    mask: u32,
) -> usize
    requires r_le_rationals { r ≤ rationals }
    requires from_in_bounds { behind (comparison_bytes r) count from ≤ length input.now }
    requires from_in_bounds_2 { to + length (split_comparisons_at (inside mask) input.now r count from) ≤ length out.old }
    ensures { Wrote out.old to (split_comparisons_at (inside mask) input.now r count from) out.new
        result }
{
    let mut next = to;
    let mut at = from;
    let mut left = count;
    while 0 < left {
        next = put_comparison(out, next, input, at, r, mask);
        at += comparison_bytes(r);
        left -= 1;
    }
    next
}
