// A clause's literals as two sets: the variables of its positive literals, and those of its negative ones; and as one.
ghost use Rattle.std.specs.Prelude.{◌≡◌, true, false, ◌≤◌, length};
ghost use Rattle.rules_types.specs.Limits.{all_booleans};
ghost use Rattle.problem_scan.specs.Values.{values_at, behind, literal_at};
ghost use Rattle.masks.specs.Mask.{bits};
ghost use Rattle.rules.specs.Normalize.{members_of};
ghost use Rattle.problem_clauses.specs.Literals.{literal_of, joined, with_variables};

use masks::with;

#[derive(Clone, Copy)]
pub struct Members {
    pub positive: u32,
    pub negative: u32,
}

// With one literal more.
fn including(l: Members, code: u8) -> Members
    ensures positive { bits all_booleans result.positive ≡ joined false (literal_of code) (bits all_booleans l.positive) }
    ensures negative { bits all_booleans result.negative ≡ joined true (literal_of code) (bits all_booleans l.negative) }
{
    let variable = (code % 128) as usize;
    if code < 128 {
        return Members {
            positive: with(l.positive, variable),
            negative: l.negative,
        };
    }
    Members {
        positive: l.positive,
        negative: with(l.negative, variable),
    }
}

// Of so many literals, from the last to the first.
pub fn literals(input: &[u8], from: usize, count: u8) -> Members
    requires { behind 1 count from ≤ length input.now }
    ensures positive { bits all_booleans result.positive ≡ members_of false (values_at (literal_at input.now) 1 count from) }
    ensures negative { bits all_booleans result.negative ≡ members_of true (values_at (literal_at input.now) 1 count from) }
{
    let mut left = count;
    let mut l = Members {
        positive: 0,
        negative: 0,
    };
    while 0 < left {
        left -= 1;
        l = including(l, input[from + left as usize]);
    }
    l
}

// Those of a mask, and those of so many literals in either sign.
pub fn with_variables(mask: u32, input: &[u8], from: usize, count: u8) -> u32
    requires { behind 1 count from ≤ length input.now }
    ensures { bits all_booleans result ≡ with_variables (values_at (literal_at input.now) 1 count from) (bits all_booleans mask) }
{
    let mut all = mask;
    let mut at = from;
    let mut left = count;
    while 0 < left {
        all = with(all, (input[at] % 128) as usize);
        at += 1;
        left -= 1;
    }
    all
}
