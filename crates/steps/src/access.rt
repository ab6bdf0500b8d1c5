// The fields of step i of a proof's bytes, and its line. The bytes of one step are read as those of a proof that has only step 0.
ghost use Rattle.std.specs.Prelude.{◌≡◌, ◌+◌, ◌*◌, ◌≤◌, ◌<◌, length};
ghost use Rattle.rules_types.specs.Limits.{step_bytes, rationals};
ghost use Rattle.rules_types.specs.Layout.{step_relation, step_positive, step_negative, step_coefficients, step_bound};
ghost use Rattle.rules.specs.Bytes.{field_at, from_unsigned};
ghost use Rattle.steps.specs.Places.{step_at, HasStep};
ghost use Rattle.steps.specs.Decoding.{amounts_at};
ghost use Rattle.steps.specs.Origin.{origin_at};
ghost use Rattle.steps.specs.Lines.{line_at};

use crate::origin::Origin;
use fields::{amount_at, u8_at, u16_at, u32_at};
use lines::line::Line;
use rules_types::layout::{
    STEP_BOUND, STEP_COEFFICIENTS, STEP_FIRST, STEP_HOW, STEP_NEGATIVE, STEP_POSITIVE,
    STEP_RELATION, STEP_SECOND, STEP_WHICH,
};
use rules_types::limits::Limits;

// Where it comes from: "how", "which", "first parent", "second parent".
pub fn origin_at(proof: &[u8], i: usize) -> Origin
    requires { HasStep proof.now i }
    ensures { result ≡ origin_at proof.now i }
{
    let at = Limits::STEP_BYTES * i;
    Origin {
        how: u8_at(proof, at + STEP_HOW),
        which: u8_at(proof, at + STEP_WHICH),
        first: u16_at(proof, at + STEP_FIRST),
        second: u16_at(proof, at + STEP_SECOND),
    }
}

pub fn relation_at(proof: &[u8], i: usize) -> u8
    requires { HasStep proof.now i }
    ensures { result ≡ field_at (step_bytes * i + step_relation) 1 proof.now }
{
    u8_at(proof, Limits::STEP_BYTES * i + STEP_RELATION)
}

// Four bytes as a word.
fn word_at(s: &[u8], at: usize) -> u32
    requires { at + 4 ≤ length s.now }
    ensures { result ≡ field_at at 4 s.now }
{
    u32_at(s, at) as u32
}

pub fn positive_at(proof: &[u8], i: usize) -> u32
    requires { HasStep proof.now i }
    ensures { result ≡ field_at (step_bytes * i + step_positive) 4 proof.now }
{
    word_at(proof, Limits::STEP_BYTES * i + STEP_POSITIVE)
}

pub fn negative_at(proof: &[u8], i: usize) -> u32
    requires { HasStep proof.now i }
    ensures { result ≡ field_at (step_bytes * i + step_negative) 4 proof.now }
{
    word_at(proof, Limits::STEP_BYTES * i + STEP_NEGATIVE)
}

// A coefficient's word, which tells it from every other.
pub fn coefficient_word_at(proof: &[u8], i: usize, f: usize) -> u32
    requires has_step { HasStep proof.now i }
    requires f_lt_rationals { f < rationals }
    ensures { result ≡ field_at (step_bytes * i + (step_coefficients + 4 * f)) 4 proof.now }
{
    word_at(proof, Limits::STEP_BYTES * i + (STEP_COEFFICIENTS + 4 * f))
}

pub fn coefficient_at(proof: &[u8], i: usize, f: usize) -> i64
    requires has_step { HasStep proof.now i }
    requires f_lt_rationals { f < rationals }
    ensures { result ≡ from_unsigned (field_at (step_bytes * i + (step_coefficients + 4 * f)) 4 proof.now) }
{
    amount_at(proof, Limits::STEP_BYTES * i + (STEP_COEFFICIENTS + 4 * f))
}

fn coefficients_at(proof: &[u8], i: usize) -> [i64; Limits::RATIONALS]
    requires { HasStep proof.now i }
    ensures { result ≡ amounts_at rationals step_coefficients (step_at proof.now i) }
{
    let mut out = [0 as i64; Limits::RATIONALS];
    let mut f = 0;
    while f < Limits::RATIONALS {
        out[f] = coefficient_at(proof, i, f);
        f += 1;
    }
    out
}

pub fn bound_at(proof: &[u8], i: usize) -> i64
    requires { HasStep proof.now i }
    ensures { result ≡ from_unsigned (field_at (step_bytes * i + step_bound) 4 proof.now) }
{
    amount_at(proof, Limits::STEP_BYTES * i + STEP_BOUND)
}

// The line of step i.
pub fn line_at(proof: &[u8], i: usize) -> Line
    requires { HasStep proof.now i }
    ensures { result ≡ line_at proof.now i }
{
    let coefficients = coefficients_at(proof, i);
    Line {
        positive: positive_at(proof, i),
        negative: negative_at(proof, i),
        relation: relation_at(proof, i),
        coefficients: coefficients,
        bound: bound_at(proof, i),
    }
}
