// 13: "over 16; first byte of the clause passing it".
ghost use Rattle.std.specs.Prelude.{◌≡◌, ◌≤◌, length};
ghost use Rattle.rules.specs.Split.{over_split};
ghost use Rattle.problem_read.specs.Clauses.{clauses_at, clauses_end};
ghost use Rattle.problem_read.specs.Over.{excess};

use problem_clauses::places::next;
use problem_clauses::splits::splits;
use rules_types::limits::Limits;

// The split variables are within their limit, or pass it in the clause at a place.
#[derive(Clone, Copy)]
pub enum Excess {
    Within,
    At(usize),
}

// Of so many clauses.
pub fn over(input: &[u8], from: usize, r: u8, count: u64) -> Excess
    requires { clauses_end input.now r count from ≤ length input.now }
    ensures { result ≡ excess (over_split 0 (clauses_at input.now r count from)) }
{
    let mut at = from;
    let mut left = count;
    let mut total: usize = 0;
    while 0 < left {
        let behind = next(input, at, r);
        total += splits(input, at, r) as usize;
        if Limits::SPLITS < total {
            return Excess::At(at);
        }
        at = behind;
        left -= 1;
    }
    Excess::Within
}
