// One part of a clause, by its number.
ghost use Rattle.std.specs.Prelude.{◌≡◌, ◌+◌, ◌≤◌};
ghost use Rattle.std.proofs.Math.ListN.{get_elem?};
ghost use Rattle.rules_types.specs.Limits.{rationals, all_booleans};
ghost use Rattle.rules.specs.Split.{parts_of, splits_of};
ghost use Rattle.problem_scan.specs.Values.{clause_at};
ghost use Rattle.problem_scan.specs.Sound.{SoundClause};
ghost use Rattle.lines.specs.Line.{Ready};
ghost use Rattle.problem_parts.specs.Parts.{parts_from, SoundParts};
ghost use Rattle.problem_parts.specs.Part.{part_of, LookingFor};

use crate::parts::{Parts, bare, begin, count, next, splits};
use lines::line::Line;
use problem_clauses::readings::read_twice;

// The line, where there is such a part.
#[derive(Clone, Copy)]
pub struct Found {
    pub found: bool,
    pub line: Line,
}

#[inline(always)]
fn first(input: &[u8], r: u8, parts: Parts) -> Found
    requires r_le_rationals { r ≤ rationals }
    requires sound_parts { SoundParts input.now r parts }
    ensures result_value { part_of result ≡ get_elem? (parts_from input.now r parts) 0 }
    ensures ready { Ready result.line }
{
    if parts.more {
        let p = next(input, r, parts);
        let line = p.line;
        return Found {
            found: true,
            line: line,
        };
    }
    Found {
        found: false,
        line: bare(parts),
    }
}

// Where a part is looked for: so many parts on.
#[derive(Clone, Copy)]
pub struct Sought {
    pub parts: Parts,
    pub left: u64,
}

// Part j of the clause at a place, "the second's pieces numbered on": in its first reading, or behind that in its second.
fn seek(input: &[u8], at: usize, r: u8, split: usize, j: u64) -> Sought
    requires sound_clause { SoundClause input.now r at }
    requires at_bound { split + splits_of (clause_at input.now r at) ≤ all_booleans }
    ensures { LookingFor input.now r at split j result.parts result.left }
{
    let first = begin(input, at, r, split, false);
    let n = count(first) as u64;
    if j < n || !read_twice(input, at, r) {
        return Sought {
            parts: first,
            left: j,
        };
    }
    Sought {
        parts: begin(input, at, r, split + splits(first) as usize, true),
        left: j - n,
    }
}

// `split` is the clause's first split variable.
pub fn part(input: &[u8], at: usize, r: u8, split: usize, j: u64) -> Found
    requires r_le_rationals { r ≤ rationals }
    requires sound_clause { SoundClause input.now r at }
    requires at_bound { split + splits_of (clause_at input.now r at) ≤ all_booleans }
    ensures result_value { part_of result ≡ get_elem? (parts_of split (clause_at input.now r at)) j }
    ensures ready { Ready result.line }
{
    let from = seek(input, at, r, split, j);
    let mut parts = from.parts;
    let mut left = from.left;
    while 0 < left {
        if !parts.more {
            return first(input, r, parts);
        }
        let p = next(input, r, parts);
        parts = p.rest;
        left -= 1;
    }
    first(input, r, parts)
}
