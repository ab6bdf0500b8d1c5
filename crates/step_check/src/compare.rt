// The line that a step's bytes state: that of a step which was computed, if all bytes are that step's.
ghost use Rattle.std.specs.Prelude.{◌≡◌, eqb};
ghost use Rattle.std.proofs.Math.Option.{none};
ghost use Rattle.rules.specs.Lists.{same};
ghost use Rattle.lines.specs.Line.{Ready};
ghost use Rattle.steps.specs.Origin.{header_of};
ghost use Rattle.step_check.specs.Stated.{line_found, matched, Holds, States};

use lines::line::Line;
use rules_types::limits::Limits;
use steps::encode::encode;
use steps::origin::{Origin, Step};

#[derive(Clone, Copy)]
pub struct Stated {
    pub found: bool,
    pub line: Line,
}

pub fn unstated() -> Stated
    ensures { Holds none result }
{
    let row = [0 as i64; Limits::RATIONALS];
    Stated {
        found: false,
        line: Line {
            positive: 0,
            negative: 0,
            relation: 0,
            coefficients: row,
            bound: 0,
        },
    }
}

fn same_bytes(a: [u8; Limits::STEP_BYTES], b: [u8; Limits::STEP_BYTES]) -> bool
    ensures { result ≡ same eqb a b }
{
    let mut i: usize = 0;
    while i < Limits::STEP_BYTES {
        if a[i] != b[i] {
            return false;
        }
        i += 1;
    }
    true
}

// The line, if these are the bytes of its step with this origin.
pub fn compared(origin: Origin, s: Stated, bytes: [u8; Limits::STEP_BYTES]) -> Stated
    requires { Ready s.line }
    ensures { States (matched (header_of origin) bytes (line_found s)) bytes result }
{
    if !s.found {
        return unstated();
    }
    let line = s.line;
    let own = encode(Step {
        origin: origin,
        line: line,
    });
    if same_bytes(own, bytes) {
        return s;
    }
    unstated()
}
