// The cheapest of the rational variables that remain.
ghost use Rattle.std.specs.Prelude.{◌≡◌, [], ◌∷◌, ◌++◌, ◌≤◌, ◌<◌, take};
ghost use Rattle.rules_types.specs.Limits.{rationals, most_steps};
ghost use Rattle.rules.specs.Elimination.{rationals_after, pick};
ghost use Rattle.theory_saturation.specs.Taken.{Taken};
ghost use Rattle.steps.specs.Held.{Held, steps_in};

use crate::counts::counted;
use lines::order::Order;

// The order with the rational variable of round t chosen; those of the rounds before are taken, and r is the number of the problem's.
pub fn choose(proof: &[u8], m: usize, order: Order, t: usize, r: usize) -> Order
    requires held { Held proof.now m }
    requires m_le_most_steps { m ≤ most_steps }
    requires r_le_rationals { r ≤ rationals }
    requires t_lt_r { t < r }
    requires taken { Taken r (take t order.rationals) }
    requires rationals_value { order.rationals ≡ rationals_after (take t order.rationals) }
    ensures { result.rationals ≡ rationals_after
        (take t order.rationals ++ (pick r (take t order.rationals) (steps_in proof.now m) ∷ [])) }
{
    let counts = counted(proof, m, order, t);
    let mut best = t;
    let mut least = counts.cost(order.rational(t));
    for j in t + 1..r {
        let cost = counts.cost(order.rational(j));
        if cost < least {
            best = j;
            least = cost;
        }
    }
    order.moved(best, t)
}
