// The parts of one clause, reading by reading.
ghost use Rattle.std.specs.Prelude.{◌≡◌, true, ◌+◌, ◌≤◌, ◌<◌, length};
ghost use Rattle.rules_types.specs.Limits.{rationals, splits, all_booleans, most_steps};
ghost use Rattle.rules.specs.Split.{splits_of};
ghost use Rattle.problem_scan.specs.Values.{clause_at};
ghost use Rattle.problem_scan.specs.Sound.{SoundClause};
ghost use Rattle.problem_parts.specs.Parts.{parts_from, SoundParts};
ghost use Rattle.placing.specs.Point.{Standing, is_running};
ghost use Rattle.placing.specs.declared.point.Progress.TheVariants.{Running};
ghost use Rattle.elimination.specs.LoadedParts.{LoadsFrom, LoadsClause};

use placing::admit::admit;
use placing::point::{Point, is_running};
use problem_clauses::readings::read_twice;
use problem_parts::parts::{Parts, begin, count, next, splits};
use rules_types::limits::Limits;
use steps::origin::{Origin, Step};

// "Pieces load in order." "Loading does the same": a part that an earlier line covers is dropped, as a resolvent is. The first of these
// is part `number` of its clause.
#[inline(always)]
fn load_parts(
    input: &[u8],
    r: u8,
    first: Parts,
    clause: u64,
    number: u64,
    proof: &mut [u8],
    from: Point,
    limits: Limits,
) -> Point
    requires r_le_rationals { r ≤ rationals }
    requires sound_parts { SoundParts input.now r first }
    requires first_bound { number + length (parts_from input.now r first) ≤ splits + 2 }
    requires clause_lt_most_steps { clause < most_steps }
    requires standing { Standing limits proof.old from.steps }
    requires progress_value { from.progress ≡ Running }
    ensures { LoadsFrom limits input.now r clause number first proof.old from proof.new result }
{
    let mut parts = first;
    let mut p = from;
    let mut j = number;
    while parts.more {
        let part = next(input, r, parts);
        let line = part.line;
        let step = Step {
            origin: Origin::loaded(clause, j),
            line: line,
        };
        p = admit(proof, p, step, limits);
        let progress = p.progress;
        if !is_running(progress) {
            return p;
        }
        parts = part.rest;
        j += 1;
    }
    p
}

// Behind a clause: the elimination's point, and the next split variable.
#[derive(Clone, Copy)]
pub struct Loaded {
    pub point: Point,
    pub split: usize,
}

// The clause at a place, "first with ≤, then with ≥, the second's pieces numbered on and its links counted"; `split` is the next split
// variable.
pub fn load_clause(
    input: &[u8],
    at: usize,
    r: u8,
    split: usize,
    clause: u64,
    proof: &mut [u8],
    from: Point,
    limits: Limits,
) -> Loaded
    requires r_le_rationals { r ≤ rationals }
    requires sound_clause { SoundClause input.now r at }
    requires at_bound { split + splits_of (clause_at input.now r at) ≤ all_booleans }
    requires at_bound_2 { splits_of (clause_at input.now r at) ≤ splits }
    requires clause_lt_most_steps { clause < most_steps }
    requires standing { Standing limits proof.old from.steps }
    requires progress_value { from.progress ≡ Running }
    ensures loads_clause { LoadsClause limits input.now r at split clause proof.old from proof.new result.point }
    ensures split_value { is_running result.point.progress ≡ true → result.split ≡ split + splits_of (clause_at input.now r at) }
{
    let first = begin(input, at, r, split, false);
    let behind = split + splits(first) as usize;
    let p = load_parts(input, r, first, clause, 0, proof, from, limits);
    let progress = p.progress;
    if !is_running(progress) || !read_twice(input, at, r) {
        return Loaded {
            point: p,
            split: behind,
        };
    }
    let second = begin(input, at, r, behind, true);
    Loaded {
        point: load_parts(
            input,
            r,
            second,
            clause,
            count(first) as u64,
            proof,
            p,
            limits,
        ),
        split: behind + splits(second) as usize,
    }
}
