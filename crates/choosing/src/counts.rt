// The uppers and the lowers of every rational variable, counted in one walk over the steps of a proof.
ghost use Rattle.std.specs.Prelude.{◌≡◌, ◌+◌, ◌≤◌, ◌<◌, take};
ghost use Rattle.rules_types.specs.Limits.{rationals, most_steps};
ghost use Rattle.rules.specs.Elimination.{cost_of};
ghost use Rattle.theory_saturation.specs.Order.{Ordered};
ghost use Rattle.lines.specs.Order.{variables_of};
ghost use Rattle.lines.specs.Line.{meaning, Shaped};
ghost use Rattle.steps.specs.Held.{Held, steps_in};
ghost use Rattle.choosing.specs.Counts.{cost_at, Within, CountedOne, Counted};

use lines::line::Line;
use lines::order::Order;
use machine::sign::{is_negative, is_positive};
use rules_types::limits::Limits;
use steps::access::line_at;

#[derive(Clone, Copy)]
pub struct Counts {
    pub uppers: [u32; Limits::RATIONALS],
    pub lowers: [u32; Limits::RATIONALS],
}

// "U × L - U - L", which may be below 0.
fn cost_of(u: u32, l: u32) -> i64
    requires u_le_most_steps { u ≤ most_steps }
    requires l_le_most_steps { l ≤ most_steps }
    ensures { result ≡ cost_of u l }
{
    let a = i64::from(u);
    let b = i64::from(l);
    a * b - a - b
}

impl Counts {
    // The cost of rational variable f.
    pub fn cost(self, f: usize) -> i64
        requires f_lt_rationals { f < rationals }
        requires within { Within most_steps self }
        ensures { result ≡ cost_at self f }
    {
        cost_of(self.uppers[f], self.lowers[f])
    }

    // With one line more.
    fn with(mut self, line: Line) -> Counts
        requires shaped { Shaped line }
        requires within { Within most_steps self }
        ensures { CountedOne (meaning line) self result }
    {
        for f in 0..Limits::RATIONALS {
            let z = line.coefficients[f];
            self.uppers[f] += u32::from(is_positive(z));
            self.lowers[f] += u32::from(is_negative(z));
        }
        self
    }
}

// Among the lines of the first m steps "without a figure already taken": those of no round before t.
pub fn counted(proof: &[u8], m: usize, order: Order, t: usize) -> Counts
    requires held { Held proof.now m }
    requires m_le_most_steps { m ≤ most_steps }
    requires t_le_rationals { t ≤ rationals }
    requires ordered { Ordered (variables_of order) }
    ensures within { Within m result }
    ensures counted { Counted (take t order.rationals) (steps_in proof.now m) result }
{
    let mut counts = Counts {
        uppers: [0; Limits::RATIONALS],
        lowers: [0; Limits::RATIONALS],
    };
    for i in 0..m {
        let line = line_at(proof, i);
        if line.round(order) >= t {
            counts = counts.with(line);
        }
    }
    counts
}
