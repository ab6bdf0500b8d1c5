// "A book's line follows if all 64 bytes are a loaded piece, or the result of two earlier lines".
ghost use Rattle.std.specs.Prelude.{◌*◌, ◌≤◌, length};
ghost use Rattle.rules_types.specs.Limits.{step_bytes};
ghost use Rattle.steps.specs.Lines.{ReadyLines};
ghost use Rattle.step_check.specs.Stated.{States};
ghost use Rattle.proof_check.specs.Index.{Known};
ghost use Rattle.proof_check.specs.Loaded.{line_stated_at};

use crate::load::loaded;
use problem_scan::cursor::Sizes;
use rules_types::limits::Limits;
use rules_types::terms::Edition;
use step_check::compare::Stated;
use step_check::derive::derived;
use steps::access::origin_at;

// The line that these bytes state as step i of the proof. How is 0 of a loaded part, and of no resolvent.
pub fn line_stated(
    input: &[u8],
    sizes: Sizes,
    edition: Edition,
    places: &[u16],
    variables: &[u8],
    proof: &[u8],
    i: usize,
    bytes: [u8; Limits::STEP_BYTES],
) -> Stated
    requires known { Known input.now sizes places.now variables.now }
    requires i_in_bounds { step_bytes * i ≤ length proof.now }
    requires ready_lines { ReadyLines proof.now i }
    ensures { States (line_stated_at edition input.now sizes proof.now i bytes) bytes result }
{
    let origin = origin_at(&bytes, 0);
    if origin.how == 0 {
        return loaded(input, sizes, edition, places, variables, bytes);
    }
    derived(proof, i, bytes)
}
