// Steps as parts of a proof's bytes.
ghost use Rattle.std.specs.Prelude.{◌≡◌, ◌*◌, ◌≤◌, length};
ghost use Rattle.rules_types.specs.Limits.{step_bytes};
ghost use Rattle.steps.specs.Places.{step_at, with_step, zeroed, HasStep};

use fields::{put_bytes, put_zeros};
use rules_types::limits::Limits;

pub fn put(proof: &mut [u8], i: usize, bytes: [u8; Limits::STEP_BYTES])
    requires { HasStep proof.old i }
    ensures { proof.new ≡ with_step i bytes proof.old }
{
    put_bytes(proof, Limits::STEP_BYTES * i, &bytes);
}

pub fn get(proof: &[u8], i: usize) -> [u8; Limits::STEP_BYTES]
    requires { HasStep proof.now i }
    ensures { result ≡ step_at proof.now i }
{
    let at = Limits::STEP_BYTES * i;
    let mut bytes = [0u8; Limits::STEP_BYTES];
    let mut j: usize = 0;
    while j < Limits::STEP_BYTES {
        bytes[j] = proof[at + j];
        j += 1;
    }
    bytes
}

// Zeros over the steps from one up to another.
pub fn zero(proof: &mut [u8], from: usize, to: usize)
    requires from_le_to { from ≤ to }
    requires to_in_bounds { step_bytes * to ≤ length proof.old }
    ensures { proof.new ≡ zeroed from to proof.old }
{
    put_zeros(proof, Limits::STEP_BYTES * from, Limits::STEP_BYTES * to);
}
