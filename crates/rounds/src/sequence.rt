// The rounds, one after another, to the end of their order or to the first event that ends the elimination.
ghost use Rattle.std.specs.Prelude.{◌≤◌};
ghost use Rattle.rules_types.specs.Limits.{rationals, most_steps};
ghost use Rattle.steps.specs.Held.{Held, steps_in};
ghost use Rattle.placing.specs.Point.{Standing};
ghost use Rattle.rounds.specs.Rounds.{Choosable, OrderFor, AllRounds};

use crate::round::round;
use choosing::choose::choose;
use lines::order::{Order, Round, VariableRound};
use placing::point::{Point, is_running};
use rules_types::limits::Limits;

// Where an elimination ended, and the order that it took.
#[derive(Clone, Copy)]
pub struct Run {
    pub end: Point,
    pub order: Order,
}

// The order for round t: a rational variable of the problem is chosen for it, from the first m steps.
fn order_for(proof: &[u8], m: usize, order: Order, t: usize, r: usize) -> Order
    requires held { Held proof.now m }
    requires m_le_most_steps { m ≤ most_steps }
    requires r_le_rationals { r ≤ rationals }
    requires choosable { Choosable r t order }
    ensures { OrderFor r t (steps_in proof.now m) order result }
{
    if t < r {
        return choose(proof, m, order, t, r);
    }
    order
}

// Of a problem with r rational variables.
pub fn rounds(proof: &mut [u8], r: usize, from: Point, limits: Limits) -> Run
    requires standing { Standing limits proof.old from.steps }
    requires r_le_rationals { r ≤ rationals }
    requires steps_le_most_steps { limits.steps ≤ most_steps }
    requires pairs_le_most_steps { from.pairs ≤ most_steps }
    ensures { AllRounds r limits proof.old from result.order proof.new result.end }
{
    let mut order = Order::rising();
    let mut p = from;
    let mut t: usize = 0;
    loop {
        let progress = p.progress;
        if !is_running(progress) {
            return Run {
                end: p,
                order: order,
            };
        }
        order = order_for(proof, p.steps, order, t, r);
        match order.round_at(t) {
            Round::Of(v) => {
                let current = VariableRound {
                    order: order,
                    number: t,
                    variable: v,
                };
                p = round(proof, current, p, limits);
            }
            Round::End => return Run {
                end: p,
                order: order,
            },
        }
        t += 1;
    }
}
