// The parts of a reading one after another: "Piece 0 has the literals, condition 0 and its link; each later piece has the previous
// link negated, its condition and, except the last, the next link."
ghost use Rattle.std.specs.Prelude.{◌≡◌, true, false, ◌∷◌, ◌≤◌, ◌<◌, ltb};
ghost use Rattle.std.proofs.Math.Option.{none, some};
ghost use Rattle.rules_types.specs.Limits.{rationals, all_booleans};
ghost use Rattle.rules.specs.Lists.{all};
ghost use Rattle.rules.specs.Arithmetic.{is_zero};
ghost use Rattle.rules.specs.Normalize.{reduced};
ghost use Rattle.masks.specs.Mask.{bits};
ghost use Rattle.problem_scan.specs.Values.{constraint_at};
ghost use Rattle.problem_scan.specs.Sound.{SoundComparison, SoundClause};
ghost use Rattle.lines.specs.Line.{meaning, Ready};
ghost use Rattle.problem_parts.specs.Constraint.{line_of};
ghost use Rattle.problem_parts.specs.Parts.{parts_from, SoundParts, splits_in, parts_left, Begun, with_split, parts_behind};
ghost use Rattle.problem_parts.specs.Skip.{Skipped};

use crate::constraint::constraint_line;
use crate::skip::{ConstraintsAt, skip};
use lines::line::Line;
use masks::{meets, with};
use normalization::reduce::reduce;
use problem_clauses::literals::literals;
use problem_clauses::places::count_place;
use problem_clauses::splits::{Staying, between, remaining};
use rules_types::layout::comparison_bytes;
use rules_types::limits::Limits;

#[derive(Clone, Copy)]
pub struct Parts {
    // Whether it is the second reading of its clause.
    pub second: bool,
    // Whether a part is left.
    pub more: bool,
    // The place of the first constraint that is left, how many are left, and how many of them stay.
    pub at: usize,
    pub left: u8,
    pub stay: u8,
    // The literals of the next part, and its split variable where it takes one.
    pub positive: u32,
    pub negative: u32,
    pub split: usize,
}

// A part, and the parts behind it.
#[derive(Clone, Copy)]
pub struct Part {
    pub line: Line,
    pub rest: Parts,
}

// Before the first part of the first or of the second reading of a clause; `split` is the next split variable.
pub fn begin(input: &[u8], at: usize, r: u8, split: usize, second: bool) -> Parts
    requires sound_clause { SoundClause input.now r at }
    requires split_le_all_booleans { split ≤ all_booleans }
    ensures { Begun input.now r at split second result }
{
    let place = count_place(input, at);
    let l = literals(input, at + 1, input[at]);
    let count = input[place];
    let mut first = Parts {
        second: second,
        more: false,
        at: place + 1,
        left: count,
        stay: 0,
        positive: l.positive,
        negative: l.negative,
        split: split,
    };
    if meets(l.positive, l.negative) {
        return first;
    }
    let k = remaining(input, place + 1, r, count, second);
    let Staying::Count(n) = k else {
        return first;
    };
    first.more = true;
    first.stay = n;
    first
}

// The split variables that the parts take.
pub fn splits(parts: Parts) -> u8
    ensures { result ≡ splits_in parts }
{
    between(Staying::Count(parts.stay))
}

// How many parts are left.
pub fn count(parts: Parts) -> u8
    ensures { result ≡ parts_left parts }
{
    if !parts.more {
        return 0;
    }
    if parts.stay == 0 {
        return 1;
    }
    parts.stay
}

// The positive literals of the next part: with its split variable, except the last.
fn own(parts: Parts) -> u32
    ensures { bits all_booleans result ≡ with_split (ltb 1 parts.stay) parts.split (bits all_booleans parts.positive) }
{
    if 1 < parts.stay {
        return with(parts.positive, parts.split);
    }
    parts.positive
}

// The only part, without a constraint.
pub fn bare(parts: Parts) -> Line
    ensures result_value { meaning result ≡ line_of parts.positive parts.negative none }
    ensures ready { Ready result }
{
    Line {
        positive: parts.positive,
        negative: parts.negative,
        relation: 0,
        coefficients: [0 as i64; Limits::RATIONALS],
        bound: 0,
    }
}

// A constraint that stays, divided by its content.
#[inline(always)]
fn reduced_line(input: &[u8], at: usize, r: u8, second: bool, positive: u32, negative: u32) -> Line
    requires r_le_rationals { r ≤ rationals }
    requires sound_comparison { SoundComparison input.now r at }
    requires at_value { all is_zero (constraint_at input.now second r at).coefficients ≡ false }
    ensures result_value { meaning result ≡ line_of positive negative (some (reduced (constraint_at input.now second r at))) }
    ensures ready { Ready result }
{
    reduce(constraint_line(input, at, r, second, positive, negative))
}

// Behind the part whose constraint is the first of these.
fn rest(input: &[u8], r: u8, parts: Parts, from: ConstraintsAt) -> Parts
    requires sound_parts { SoundParts input.now r parts }
    requires skipped { Skipped input.now parts.second r parts.at parts.left from }
    requires more_value { (parts.more ≡ true) × (0 < parts.stay) }
    ensures result_value { parts_from input.now r result ≡ parts_behind input.now r parts from }
    ensures sound_parts_2 { SoundParts input.now r result }
{
    let size = comparison_bytes(r);
    Parts {
        second: parts.second,
        more: 1 < parts.stay,
        at: from.at + size,
        left: from.left - 1,
        stay: parts.stay - 1,
        positive: 0,
        negative: with(0, parts.split),
        split: parts.split + 1,
    }
}

// The next part, and those behind it.
#[inline(always)]
pub fn next(input: &[u8], r: u8, parts: Parts) -> Part
    requires r_le_rationals { r ≤ rationals }
    requires sound_parts { SoundParts input.now r parts }
    requires more_value { parts.more ≡ true }
    ensures parts_value { parts_from input.now r parts ≡ meaning result.line ∷ parts_from input.now r result.rest }
    ensures ready { Ready result.line }
    ensures sound_parts_2 { SoundParts input.now r result.rest }
{
    if parts.stay == 0 {
        let mut ended = parts;
        ended.more = false;
        return Part {
            line: bare(parts),
            rest: ended,
        };
    }
    let first = skip(input, parts.at, r, parts.second, parts.left, parts.stay);
    Part {
        line: reduced_line(input, first.at, r, parts.second, own(parts), parts.negative),
        rest: rest(input, r, parts, first),
    }
}
