// The walk from the last round to the first, up to the first number beyond the range of amounts: what exceeds it once exceeds it at the
// end.
ghost use Rattle.std.specs.Prelude.{◌≡◌, Bool, ℕ, ◌*◌, ◌≤◌, length};
ghost use Rattle.rules_types.specs.Limits.{step_bytes, rationals};
ghost use Rattle.rules.specs.Values.{walk};
ghost use Rattle.rules.specs.Model.{written};
ghost use Rattle.theory_saturation.specs.Order.{Ordered};
ghost use Rattle.lines.specs.Order.{variables_of};
ghost use Rattle.steps.specs.Lines.{lines_in, ReadyLines};
ghost use Rattle.walk.specs.Narrow.{Narrow};
ghost use Rattle.walk.specs.Reached.{bytes_of, WrittenInRange};
ghost use Rattle.walk.specs.Backwards.{Walking};

use crate::round::{assign_boolean, assign_rational};
use lines::order::Order;
use models::model::Model;
use rules_types::limits::Limits;

// The rounds of the Boolean variables, which are the last.
fn walk_booleans(proof: &[u8], n: usize, order: Order) -> Model
    requires n_in_bounds { step_bytes * n ≤ length proof.now }
    requires ready_lines { ReadyLines proof.now n }
    requires ordered { Ordered (variables_of order) }
    ensures { Walking (variables_of order) (lines_in proof.now n) rationals result }
{
    let mut model = Model {
        booleans: 0,
        numerators: [0; Limits::RATIONALS],
        denominator: 1,
    };
    for i in (0..Limits::ALL_BOOLEANS).rev() {
        model = assign_boolean(proof, n, order, i, model);
    }
    model
}

// None, where the assignment can not be written.
pub fn walk(proof: &[u8], n: usize, order: Order, r: u8) -> Option<Model>
    requires n_in_bounds { step_bytes * n ≤ length proof.now }
    requires ready_lines { ReadyLines proof.now n }
    requires ordered { Ordered (variables_of order) }
    requires r_le_rationals { r ≤ rationals }
    requires narrow { Narrow proof.now n r }
    ensures by_index { (b : ℕ) (opens : ℕ → Bool) → written b r opens (walk (variables_of order) (lines_in proof.now n))
        ≡ bytes_of b r opens result }
    ensures written_in_range { WrittenInRange result }
{
    let mut model = walk_booleans(proof, n, order);
    for t in (0..Limits::RATIONALS).rev() {
        model = assign_rational(proof, n, order.rational_round(t), model)?;
    }
    Some(model)
}
