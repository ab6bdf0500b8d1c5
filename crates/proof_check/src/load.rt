// "all 64 bytes are a loaded piece": the part that a step's bytes name, found by the index.
ghost use Rattle.std.specs.Prelude.{◌≤◌};
ghost use Rattle.rules_types.specs.Limits.{rationals};
ghost use Rattle.rules.specs.Elimination.{loadable_of};
ghost use Rattle.rules.specs.Checker.{line_among};
ghost use Rattle.problem_read.specs.Parsed.{posed_at};
ghost use Rattle.step_check.specs.Named.{clause};
ghost use Rattle.step_check.specs.Stated.{States};
ghost use Rattle.proof_check.specs.Index.{Known};
ghost use Rattle.proof_check.specs.Loaded.{added_stated};

use problem_clauses::edition::added;
use problem_parts::edition::non_negative;
use problem_parts::part::part;
use problem_scan::cursor::Sizes;
use rules_types::limits::Limits;
use rules_types::terms::Edition;
use step_check::compare::{Stated, compared, unstated};
use steps::access::origin_at;
use steps::origin::Origin;

// Of the clauses that the edition adds, which have one part each: clause n states that rational variable 0 is at least 0.
fn loaded_behind(sizes: Sizes, edition: Edition, bytes: [u8; Limits::STEP_BYTES]) -> Stated
    requires rationals_le_rationals { sizes.rationals ≤ rationals }
    requires clauses_bound { sizes.clauses ≤ clause bytes }
    ensures { States (added_stated edition sizes bytes) bytes result }
{
    let origin = origin_at(&bytes, 0);
    let clause = origin.first;
    let number = origin.second;
    let f = clause - sizes.clauses;
    if added(edition, sizes.rationals) as u64 <= f {
        return unstated();
    }
    if number != 0 {
        return unstated();
    }
    let s = Stated {
        found: true,
        line: non_negative(f as usize),
    };
    compared(Origin::loaded(clause, number), s, bytes)
}

pub fn loaded(
    input: &[u8],
    sizes: Sizes,
    edition: Edition,
    places: &[u16],
    variables: &[u8],
    bytes: [u8; Limits::STEP_BYTES],
) -> Stated
    requires { Known input.now sizes places.now variables.now }
    ensures { States (line_among (loadable_of (posed_at edition input.now sizes)) bytes) bytes result }
{
    let origin = origin_at(&bytes, 0);
    let clause = origin.first;
    let number = origin.second;
    if sizes.clauses <= clause {
        return loaded_behind(sizes, edition, bytes);
    }
    let c = clause as usize;
    let f = part(
        input,
        places[c] as usize,
        sizes.rationals,
        variables[c] as usize,
        number,
    );
    let line = f.line;
    let s = Stated {
        found: f.found,
        line: line,
    };
    compared(Origin::loaded(clause, number), s, bytes)
}
