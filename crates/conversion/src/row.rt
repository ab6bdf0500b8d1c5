// The coefficients of a comparison: "Any other figure becomes two, the first minus the second, the pair side by side".
ghost use Rattle.std.specs.Prelude.{◌≡◌, ◌+◌, ◌^◌, ◌≤◌, ◌<◌, length};
ghost use Rattle.rules_types.specs.Limits.{rationals};
ghost use Rattle.rules.specs.Convert.{turned};
ghost use Rattle.problem_scan.specs.Values.{behind};
ghost use Rattle.kept_rationals.specs.Kept.{inside};
ghost use Rattle.conversion.specs.Writing.{Wrote};
ghost use Rattle.conversion.specs.Row.{half_bytes, row_at};

use fields::{put_u32, u32_at};
use masks::member;

// The 32 bits of an amount with its sign turned.
fn turned(n: u64) -> u64
    requires { n < 2 ^ 32 }
    ensures { result ≡ turned n }
{
    if n == 0 {
        return 0;
    }
    4294967296 - n
}

// A coefficient, or its halves; the place behind it.
fn put_halves(out: &mut [u8], to: usize, n: u64, kept: bool) -> usize
    requires n_bound { n < 2 ^ 32 }
    requires n_in_bounds { to + length (half_bytes kept n) ≤ length out.old }
    ensures { Wrote out.old to (half_bytes kept n) out.new result }
{
    put_u32(out, to, n);
    if kept {
        return to + 4;
    }
    put_u32(out, to + 4, turned(n));
    to + 8
}

// r coefficients, of which those in the mask are kept.
pub fn put_row(out: &mut [u8], to: usize, input: &[u8], from: usize, r: u8, mask: u32) -> usize
    requires r_le_rationals { r ≤ rationals }
    requires from_in_bounds { behind 4 r from ≤ length input.now }
    requires from_in_bounds_2 { to + length (row_at (inside mask) input.now 0 r from) ≤ length out.old }
    ensures { Wrote out.old to (row_at (inside mask) input.now 0 r from) out.new result }
{
    let mut next = to;
    let mut at = from;
    let mut f: u8 = 0;
    while f < r {
        next = put_halves(out, next, u32_at(input, at), member(mask, f as usize));
        at += 4;
        f += 1;
    }
    next
}
