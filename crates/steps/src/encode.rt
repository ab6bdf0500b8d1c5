// The bytes of a step.
ghost use Rattle.std.specs.Prelude.{◌≡◌, [], ◌∷◌, ◌++◌, ◌≤◌, length};
ghost use Rattle.rules_types.specs.Layout.{step_how, step_relation, step_coefficients, step_bound, step_zeros};
ghost use Rattle.rules.specs.Bytes.{amount_bytes};
ghost use Rattle.rules.specs.Steps.{header_bytes};
ghost use Rattle.fields.specs.Field.{stored};
ghost use Rattle.theory_vectors.specs.Amounts.{Small, Amounts};
ghost use Rattle.lines.specs.Line.{meaning, Ready};
ghost use Rattle.steps.specs.Origin.{header_of};
ghost use Rattle.steps.specs.Encoding.{encoded, literal_bytes};

use crate::origin::{Origin, Step};
use fields::{put_amount, put_u16, put_u32};
use rules_types::layout::{
    STEP_BOUND, STEP_COEFFICIENTS, STEP_FIRST, STEP_HOW, STEP_NEGATIVE, STEP_POSITIVE,
    STEP_RELATION, STEP_SECOND, STEP_WHICH,
};
use rules_types::limits::Limits;

// How, which, and both parents.
fn put_header(s: &mut [u8], origin: Origin)
    requires { step_relation ≤ length s.old }
    ensures { s.new ≡ stored step_how (header_bytes (header_of origin)) s.old }
{
    s[STEP_HOW] = origin.how;
    s[STEP_WHICH] = origin.which;
    put_u16(s, STEP_FIRST, origin.first);
    put_u16(s, STEP_SECOND, origin.second);
}

// Relation, a zero byte, and both masks.
fn put_literals(s: &mut [u8], relation: u8, positive: u32, negative: u32)
    requires { step_coefficients ≤ length s.old }
    ensures { s.new ≡ stored step_relation (literal_bytes relation positive negative) s.old }
{
    s[STEP_RELATION] = relation;
    s[STEP_RELATION + 1] = 0;
    put_u32(s, STEP_POSITIVE, positive as u64);
    put_u32(s, STEP_NEGATIVE, negative as u64);
}

fn put_coefficients(s: &mut [u8], row: [i64; Limits::RATIONALS])
    requires step_bound_bound { step_bound ≤ length s.old }
    requires amounts { Amounts row }
    ensures { s.new ≡ stored step_coefficients (amount_bytes row) s.old }
{
    let mut i = 0;
    while i < Limits::RATIONALS {
        let z = row[i];
        put_amount(s, STEP_COEFFICIENTS + 4 * i, z);
        i += 1;
    }
}

// Coefficients and bound.
fn put_row(s: &mut [u8], row: [i64; Limits::RATIONALS], bound: i64)
    requires step_zeros_bound { step_zeros ≤ length s.old }
    requires amounts { Amounts row }
    requires small { Small bound }
    ensures { s.new ≡ stored step_coefficients (amount_bytes (row ++ (bound ∷ []))) s.old }
{
    put_coefficients(s, row);
    put_amount(s, STEP_BOUND, bound);
}

pub fn encode(step: Step) -> [u8; Limits::STEP_BYTES]
    requires { Ready step.line }
    ensures { result ≡ encoded (header_of step.origin) (meaning step.line) }
{
    let mut bytes = [0u8; Limits::STEP_BYTES];
    let line = step.line;
    let row = line.coefficients;
    put_header(&mut bytes, step.origin);
    put_literals(&mut bytes, line.relation, line.positive, line.negative);
    put_row(&mut bytes, row, line.bound);
    bytes
}
