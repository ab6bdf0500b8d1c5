// A mark for each step of a proof: step i has bit i % 32 of word i / 32.
ghost use Rattle.std.specs.Prelude.{◌≡◌, ◌<◌, length};
ghost use Rattle.rules_types.specs.Limits.{steps};
ghost use Rattle.trimming.specs.Marks.{words, is_marked, Marks};

use masks::{member, with};
use rules_types::limits::Limits;

pub const BITS: usize = 32;

pub const WORDS: usize = Limits::STEPS as usize / BITS;

pub fn marked(marks: &[u32], i: usize) -> bool
    requires marks_len { length marks.now ≡ words }
    requires i_lt_steps { i < steps }
    ensures { result ≡ is_marked marks.now i }
{
    member(marks[i / BITS], i % BITS)
}

pub fn mark(marks: &mut [u32], i: usize)
    requires marks_len { length marks.old ≡ words }
    requires i_lt_steps { i < steps }
    ensures { Marks marks.old i marks.new }
{
    let word = marks[i / BITS];
    marks[i / BITS] = with(word, i % BITS);
}
