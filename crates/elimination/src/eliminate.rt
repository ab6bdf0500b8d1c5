// The elimination of a problem: loading, then the rounds, in a proof's bytes.
ghost use Rattle.std.specs.Prelude.{◌≡◌, ◌≤◌, length};
ghost use Rattle.rules_types.specs.Limits.{most_steps, proof_bytes};
ghost use Rattle.rules.specs.Elimination.{limited, order_after, chosen_run};
ghost use Rattle.lines.specs.Order.{variables_of};
ghost use Rattle.problem_read.specs.Parsed.{posed_at};
ghost use Rattle.problem_read.specs.Readable.{Readable};
ghost use Rattle.elimination.specs.Eliminated.{Eliminated};

use crate::load::load;
use problem_scan::cursor::Sizes;
use rounds::sequence::{Run, rounds};
use rules_types::terms::Terms;

// Of a problem of these sizes that was read without fault, in its edition; the proof's bytes are lent for the steps.
pub fn eliminate(input: &[u8], sizes: Sizes, proof: &mut [u8], terms: Terms) -> Run
    requires readable { Readable input.now sizes }
    requires limits_in_bounds { proof_bytes terms.limits ≤ length proof.old }
    requires steps_le_most_steps { terms.limits.steps ≤ most_steps }
    ensures eliminated { Eliminated terms.limits (posed_at terms.edition input.now sizes) proof.old
        proof.new result.end }
    ensures order_value { variables_of result.order
        ≡ order_after (chosen_run (limited terms.limits) (posed_at terms.edition input.now sizes)).taken }
{
    let loaded = load(input, sizes, proof, terms);
    let limits = terms.limits;
    rounds(proof, sizes.rationals as usize, loaded, limits)
}
