// The parts of all clauses: those written, then those that the edition adds.
ghost use Rattle.std.specs.Prelude.{◌+◌, ◌*◌, ◌≤◌, length};
ghost use Rattle.rules_types.specs.Limits.{rationals, most_steps, step_bytes};
ghost use Rattle.problem_read.specs.Readable.{Readable};
ghost use Rattle.placing.specs.Point.{Standing};
ghost use Rattle.elimination.specs.Loading.{LoadsWritten};
ghost use Rattle.elimination.specs.Added.{LoadsAdded, LoadsAll};

use crate::clause::load_clause;
use placing::admit::admit;
use placing::point::{Point, Progress, is_running};
use problem_clauses::edition::added;
use problem_clauses::places::next;
use problem_parts::edition::non_negative;
use problem_scan::cursor::Sizes;
use rules_types::layout::FIRST_CLAUSE;
use rules_types::limits::Limits;
use rules_types::terms::Terms;
use steps::origin::{Origin, Step};

// "links, new marks numbered from b upward in clause order".
fn load_written(input: &[u8], sizes: Sizes, proof: &mut [u8], limits: Limits) -> Point
    requires readable { Readable input.now sizes }
    requires steps_in_bounds { step_bytes * limits.steps ≤ length proof.old }
    ensures { LoadsWritten limits input.now sizes proof.old proof.new result }
{
    let mut p = Point {
        progress: Progress::Running,
        steps: 0,
        pairs: 0,
    };
    let r = sizes.rationals;
    let n = sizes.clauses;
    let mut at: usize = FIRST_CLAUSE;
    let mut split = sizes.booleans as usize;
    let mut clause: u64 = 0;
    while clause < n {
        let loaded = load_clause(input, at, r, split, clause, proof, p, limits);
        p = loaded.point;
        let progress = p.progress;
        if !is_running(progress) {
            return p;
        }
        split = loaded.split;
        at = next(input, at, r);
        clause += 1;
    }
    p
}

// "after clause n - 1, clauses n to n + r - 1 ...; they load like others", without links.
fn load_added(n: u64, count: u8, proof: &mut [u8], from: Point, limits: Limits) -> Point
    requires count_bound { n + count ≤ most_steps }
    requires count_le_rationals { count ≤ rationals }
    requires standing { Standing limits proof.old from.steps }
    ensures { LoadsAdded limits n count proof.old from proof.new result }
{
    let mut p = from;
    let mut f: u8 = 0;
    while f < count {
        let progress = p.progress;
        if !is_running(progress) {
            return p;
        }
        let step = Step {
            origin: Origin::loaded(n + f as u64, 0),
            line: non_negative(f as usize),
        };
        p = admit(proof, p, step, limits);
        f += 1;
    }
    p
}

// Of a problem in its edition.
pub fn load(input: &[u8], sizes: Sizes, proof: &mut [u8], terms: Terms) -> Point
    requires readable { Readable input.now sizes }
    requires steps_in_bounds { step_bytes * terms.limits.steps ≤ length proof.old }
    ensures { LoadsAll terms input.now sizes proof.old proof.new result }
{
    let limits = terms.limits;
    let written = load_written(input, sizes, proof, limits);
    let edition = terms.edition;
    let count = added(edition, sizes.rationals);
    load_added(sizes.clauses, count, proof, written, limits)
}
