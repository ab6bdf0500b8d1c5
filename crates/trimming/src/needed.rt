// "the last, empty line and only the lines from which it descends": they are marked, from the last step down.
ghost use Rattle.std.specs.Prelude.{◌≡◌, ◌<◌, length};
ghost use Rattle.rules_types.specs.Limits.{standard};
ghost use Rattle.rules.specs.Trim.{step_count};
ghost use Rattle.theory_trimming.specs.Ordered.{Trimmable};
ghost use Rattle.trimming.specs.Marks.{words, Unmarked};
ghost use Rattle.trimming.specs.Needed.{MarksParents, NeededMarks};

use crate::marks::{mark, marked};
use rules_types::limits::Limits;
use steps::access::origin_at;

// The parents of a step that is marked.
fn mark_parents(proof: &[u8], k: usize, marks: &mut [u32])
    requires trimmable { Trimmable standard proof.now }
    requires k_bound { k < step_count proof.now }
    requires marks_len { length marks.old ≡ words }
    ensures { MarksParents proof.now k marks.old marks.new }
{
    if !marked(marks, k) {
        return;
    }
    let origin = origin_at(proof, k);
    if origin.how == 0 {
        return;
    }
    mark(marks, origin.first as usize);
    mark(marks, origin.second as usize);
}

// Of marks that are all clear.
pub fn mark_needed(proof: &[u8], marks: &mut [u32])
    requires trimmable { Trimmable standard proof.now }
    requires marks_len { length marks.old ≡ words }
    requires unmarked { Unmarked marks.old }
    ensures { NeededMarks proof.now marks.new }
{
    let mut k = proof.len() / Limits::STEP_BYTES;
    mark(marks, k - 1);
    while 0 < k {
        k -= 1;
        mark_parents(proof, k, marks);
    }
}
