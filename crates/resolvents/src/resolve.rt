// Resolvents, normalized: dropped, overflowing, or a line that a proof can hold.
ghost use Rattle.std.specs.Prelude.{◌≡◌, true, ◌<◌};
ghost use Rattle.rules_types.specs.Limits.{all_booleans, rationals};
ghost use Rattle.rules.specs.Lines.{rational, boolean, positively, negatively};
ghost use Rattle.rules.specs.Normalize.{normal_line};
ghost use Rattle.rules.specs.Resolve.{resolve};
ghost use Rattle.lines.specs.Line.{meaning, Shaped, Ready};
ghost use Rattle.normalization.specs.Reduced.{Bounded};
ghost use Rattle.resolvents.specs.Resolved.{Gives};

use crate::boolean::resolvent_boolean;
use crate::rational::resolvent_rational;
use lines::line::Line;
use normalization::normalize::normalize;

#[derive(Clone, Copy)]
pub enum Status {
    Dropped,
    Overflows,
    Made,
}

// The line that is left, where it is not dropped.
#[derive(Clone, Copy)]
pub struct Resolved {
    pub status: Status,
    pub line: Line,
}

// "The result is tidied. It is then wide if an amount exceeds 1,000,000,000 in size".
pub fn finish(line: Line) -> Resolved
    requires shaped { Shaped line }
    requires bounded { Bounded line }
    ensures { Gives (normal_line (meaning line)) result }
{
    let n = normalize(line);
    let left = n.line;
    if n.dropped {
        return Resolved {
            status: Status::Dropped,
            line: left,
        };
    }
    if left.overflows() {
        return Resolved {
            status: Status::Overflows,
            line: left,
        };
    }
    Resolved {
        status: Status::Made,
        line: left,
    }
}

pub fn resolve_rational(f: usize, upper: Line, lower: Line) -> Resolved
    requires f_lt_rationals { f < rationals }
    requires ready { Ready upper }
    requires ready_2 { Ready lower }
    requires upper_value { positively (rational f) (meaning upper) ≡ true }
    requires lower_value { negatively (rational f) (meaning lower) ≡ true }
    ensures { Gives (resolve (rational f) (meaning upper) (meaning lower)) result }
{
    finish(resolvent_rational(f, upper, lower))
}

pub fn resolve_boolean(i: usize, upper: Line, lower: Line) -> Resolved
    requires i_lt_all_booleans { i < all_booleans }
    requires ready { Ready upper }
    requires ready_2 { Ready lower }
    ensures { Gives (resolve (boolean i) (meaning upper) (meaning lower)) result }
{
    finish(resolvent_boolean(i, upper, lower))
}
