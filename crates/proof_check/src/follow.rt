// A proof checked step by step, and its end.
ghost use Rattle.std.specs.Prelude.{◌≡◌, ◌/◌, length};
ghost use Rattle.rules_types.specs.Limits.{step_bytes};
ghost use Rattle.rules.specs.Checker.{followed_lines, ends_empty, check_proof};
ghost use Rattle.steps.specs.Lines.{lines_in};
ghost use Rattle.problem_read.specs.Parsed.{posed_at};
ghost use Rattle.proof_check.specs.Index.{Known};
ghost use Rattle.proof_check.specs.Checking.{followed_as};

use crate::state::line_stated;
use problem_scan::cursor::Sizes;
use rules_types::answers::Checked;
use rules_types::limits::Limits;
use rules_types::terms::Edition;
use steps::access::line_at;
use steps::store::get;

// The first step that does not follow, or that all do.
#[derive(Clone, Copy)]
pub enum Followed {
    Fails(usize),
    Follow,
}

pub fn follow_steps(
    input: &[u8],
    sizes: Sizes,
    edition: Edition,
    places: &[u16],
    variables: &[u8],
    proof: &[u8],
) -> Followed
    requires { Known input.now sizes places.now variables.now }
    ensures { followed_as proof.now result ≡ followed_lines (posed_at edition input.now sizes) proof.now }
{
    let count = proof.len() / Limits::STEP_BYTES;
    let mut i: usize = 0;
    while i < count {
        let bytes = get(proof, i);
        let s = line_stated(input, sizes, edition, places, variables, proof, i, bytes);
        if !s.found {
            return Followed::Fails(i);
        }
        i += 1;
    }
    Followed::Follow
}

// "the last is empty"
pub fn ends_empty(proof: &[u8]) -> bool
    ensures { result ≡ ends_empty (lines_in proof.now (length proof.now / step_bytes)) }
{
    let count = proof.len() / Limits::STEP_BYTES;
    if count == 0 {
        return false;
    }
    let line = line_at(proof, count - 1);
    line.is_empty()
}

// "accepted, or the first failing line, the line count if only the empty end is missing"
pub fn check_steps(
    input: &[u8],
    sizes: Sizes,
    edition: Edition,
    places: &[u16],
    variables: &[u8],
    proof: &[u8],
) -> Checked
    requires { Known input.now sizes places.now variables.now }
    ensures { result ≡ check_proof (posed_at edition input.now sizes) proof.now }
{
    let f = follow_steps(input, sizes, edition, places, variables, proof);
    match f {
        Followed::Fails(i) => Checked::Fails(i),
        Followed::Follow => {
            if ends_empty(proof) {
                return Checked::Accepted;
            }
            Checked::Fails(proof.len() / Limits::STEP_BYTES)
        }
    }
}
