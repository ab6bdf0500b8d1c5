// 02, (iv): the Boolean variables that stand in a clause, as it is written. The others are open.
ghost use Rattle.std.specs.Prelude.{◌≡◌};
ghost use Rattle.rules.specs.Model.{is_open};
ghost use Rattle.masks.specs.Mask.{outside};
ghost use Rattle.problem_read.specs.Parsed.{problem_at};
ghost use Rattle.problem_read.specs.Readable.{Readable};

use problem_clauses::literals::with_variables;
use problem_clauses::places::next;
use problem_scan::cursor::Sizes;
use rules_types::layout::FIRST_CLAUSE;

pub fn occurring(input: &[u8], sizes: Sizes) -> u32
    requires { Readable input.now sizes }
    ensures { outside result ≡ is_open (problem_at input.now sizes) }
{
    let mut mask: u32 = 0;
    let mut at = FIRST_CLAUSE;
    let mut left = sizes.clauses;
    while 0 < left {
        mask = with_variables(mask, input, at + 1, input[at]);
        at = next(input, at, sizes.rationals);
        left -= 1;
    }
    mask
}
