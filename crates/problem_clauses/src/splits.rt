// What normalizing leaves of a clause that was read without fault: how many constraints of a reading stay, and its split variables.
ghost use Rattle.std.specs.Prelude.{◌≡◌, false, ◌≤◌, ◌+◌, length};
ghost use Rattle.rules_types.specs.Layout.{comparison_bytes};
ghost use Rattle.rules.specs.Lists.{all};
ghost use Rattle.rules.specs.Arithmetic.{is_zero};
ghost use Rattle.rules.specs.Normalize.{settled, settled_all};
ghost use Rattle.rules.specs.Split.{splits_of};
ghost use Rattle.problem_scan.specs.Values.{values_at, behind, amount_at, constraint_at, constraints_at, clause_at, clause_end};
ghost use Rattle.problem_clauses.specs.Settled.{fate};
ghost use Rattle.problem_clauses.specs.Remaining.{is_always, weight, counted};
ghost use Rattle.problem_clauses.specs.Splits.{splits_by};

use crate::constraint::bound_of;
use crate::literals::literals;
use crate::places::count_place;
use crate::readings::has_equality;
use fields::u32_at;
use machine::sign::zero_related;
use masks::meets;
use problem_scan::relation::is_strict;
use rules_types::layout::{COMPARISON_COEFFICIENTS, comparison_bytes};

// "A condition with all coefficients 0 drops the clause if true; if false, the condition alone is struck out."
#[derive(Clone, Copy)]
pub enum Fate {
    Always,
    Never,
    Kept,
}

// The reading is dropped, or so many constraints stay.
#[derive(Clone, Copy)]
pub enum Staying {
    Dropped,
    Count(u8),
}

// Whether so many amounts are all 0.
fn zeros(input: &[u8], from: usize, count: u8) -> bool
    requires { behind 4 count from ≤ length input.now }
    ensures { result ≡ all is_zero (values_at (amount_at input.now) 4 count from) }
{
    let mut at = from;
    let mut left = count;
    while 0 < left {
        if u32_at(input, at) != 0 {
            return false;
        }
        at += 4;
        left -= 1;
    }
    true
}

// In the first or in the second reading of the clause.
pub fn settled(input: &[u8], at: usize, r: u8, second: bool) -> Fate
    requires { at + comparison_bytes r ≤ length input.now }
    ensures { result ≡ fate (settled (constraint_at input.now second r at)) }
{
    if !zeros(input, at + COMPARISON_COEFFICIENTS, r) {
        return Fate::Kept;
    }
    if zero_related(is_strict(input[at]), bound_of(input, at, r, second)) {
        return Fate::Always;
    }
    Fate::Never
}

pub fn is_always(f: Fate) -> bool
    ensures { result ≡ is_always f }
{
    match f {
        Fate::Always => true,
        Fate::Never => false,
        Fate::Kept => false,
    }
}

// How many constraints it counts as.
pub fn weight(f: Fate) -> u8
    ensures { result ≡ weight f }
{
    match f {
        Fate::Always => 0,
        Fate::Never => 0,
        Fate::Kept => 1,
    }
}

// Of so many constraints.
pub fn remaining(input: &[u8], from: usize, r: u8, count: u8, second: bool) -> Staying
    requires { behind (comparison_bytes r) count from ≤ length input.now }
    ensures { result ≡ counted 0 (settled_all (constraints_at input.now second r count from)) }
{
    let size = comparison_bytes(r);
    let mut at = from;
    let mut left = count;
    let mut n: u8 = 0;
    while 0 < left {
        let f = settled(input, at, r, second);
        if is_always(f) {
            return Staying::Dropped;
        }
        n += weight(f);
        at += size;
        left -= 1;
    }
    Staying::Count(n)
}

// Split variables: one less than the constraints that stay, where the reading does.
pub fn between(k: Staying) -> u8
    ensures { result ≡ splits_by false k }
{
    match k {
        Staying::Dropped => 0,
        Staying::Count(n) => {
            if n == 0 {
                return 0;
            }
            n - 1
        }
    }
}

// The split variables of a clause, of both its readings where it has two. With at most one comparison there are none.
pub fn splits(input: &[u8], at: usize, r: u8) -> u16
    requires { clause_end input.now r at ≤ length input.now }
    ensures { result ≡ splits_of (clause_at input.now r at) }
{
    let place = count_place(input, at);
    let count = input[place];
    if count < 2 {
        return 0;
    }
    let l = literals(input, at + 1, input[at]);
    if meets(l.positive, l.negative) {
        return 0;
    }
    let from = place + 1;
    let first = between(remaining(input, from, r, count, false)) as u16;
    if !has_equality(input, from, r, count) {
        return first;
    }
    first + between(remaining(input, from, r, count, true)) as u16
}
