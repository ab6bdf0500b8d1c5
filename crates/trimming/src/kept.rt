// "in order": the marked steps, one behind another.
ghost use Rattle.std.specs.Prelude.{◌≡◌, ◌≤◌, ◌<◌, length};
ghost use Rattle.rules_types.specs.Limits.{standard, proof_bytes};
ghost use Rattle.rules.specs.Steps.{step_at};
ghost use Rattle.rules.specs.Trim.{step_count, count_below, renumbered};
ghost use Rattle.theory_trimming.specs.Ordered.{Trimmable};
ghost use Rattle.steps.specs.Places.{HasStep, with_step};
ghost use Rattle.trimming.specs.Marks.{words, is_marked};
ghost use Rattle.trimming.specs.Numbers.{Counted};
ghost use Rattle.trimming.specs.Kept.{Put, Putting};

use crate::marks::marked;
use crate::numbers::number;
use fields::{put_bytes, put_u16};
use rules_types::layout::{STEP_FIRST, STEP_SECOND};
use rules_types::limits::Limits;
use steps::access::origin_at;

// "Parents of results are renumbered; loaded lines keep their clause and piece": step k, as step n of the target.
fn put_step(target: &mut [u8], n: usize, proof: &[u8], k: usize, marks: &[u32], before: &[u16])
    requires trimmable { Trimmable standard proof.now }
    requires k_bound { k < step_count proof.now }
    requires marks_len { length marks.now ≡ words }
    requires counted { Counted marks.now before.now }
    requires has_step { HasStep target.old n }
    ensures { target.new
        ≡ with_step n (renumbered (count_below (is_marked marks.now)) (step_at proof.now k)) target.old }
{
    let from = Limits::STEP_BYTES * k;
    let to = Limits::STEP_BYTES * n;
    put_bytes(target, to, &proof[from..from + Limits::STEP_BYTES]);
    let origin = origin_at(proof, k);
    if origin.how == 0 {
        return;
    }
    let first = number(marks, before, origin.first as usize);
    let second = number(marks, before, origin.second as usize);
    put_u16(target, to + STEP_FIRST, first);
    put_u16(target, to + STEP_SECOND, second);
}

// The same if it is marked; the steps then written.
fn put_marked(
    target: &mut [u8],
    n: usize,
    proof: &[u8],
    k: usize,
    marks: &[u32],
    before: &[u16],
) -> usize
    requires trimmable { Trimmable standard proof.now }
    requires k_bound { k < step_count proof.now }
    requires marks_len { length marks.now ≡ words }
    requires counted { Counted marks.now before.now }
    requires has_step { HasStep target.old n }
    ensures { Put proof.now (is_marked marks.now) k n target.old result target.new }
{
    if !marked(marks, k) {
        return n;
    }
    put_step(target, n, proof, k, marks, before);
    n + 1
}

// All of them; how many they are.
pub fn put_kept(target: &mut [u8], proof: &[u8], marks: &[u32], before: &[u16]) -> usize
    requires trimmable { Trimmable standard proof.now }
    requires marks_len { length marks.now ≡ words }
    requires counted { Counted marks.now before.now }
    requires standard_in_bounds { proof_bytes standard ≤ length target.old }
    ensures { Putting proof.now (is_marked marks.now) target.old (step_count proof.now) result
        target.new }
{
    let count = proof.len() / Limits::STEP_BYTES;
    let mut n: usize = 0;
    let mut k: usize = 0;
    while k < count {
        n = put_marked(target, n, proof, k, marks, before);
        k += 1;
    }
    n
}
