// An index of the clauses, made once for a check: the place of each, and its first split variable.
ghost use Rattle.std.specs.Prelude.{◌≡◌, length};
ghost use Rattle.rules_types.specs.Limits.{clauses};
ghost use Rattle.problem_read.specs.Readable.{Readable};
ghost use Rattle.proof_check.specs.Index.{Known};

use problem_clauses::places::next;
use problem_clauses::splits::splits;
use problem_scan::cursor::Sizes;
use rules_types::layout::FIRST_CLAUSE;

pub fn index(input: &[u8], sizes: Sizes, places: &mut [u16], variables: &mut [u8])
    requires readable { Readable input.now sizes }
    requires places_len { length places.old ≡ clauses }
    requires variables_len { length variables.old ≡ clauses }
    ensures { Known input.now sizes places.new variables.new }
{
    let r = sizes.rationals;
    let n = sizes.clauses as usize;
    let mut at: usize = FIRST_CLAUSE;
    let mut variable = sizes.booleans as usize;
    let mut c: usize = 0;
    while c < n {
        places[c] = at as u16;
        variables[c] = variable as u8;
        variable += splits(input, at, r) as usize;
        at = next(input, at, r);
        c += 1;
    }
}
