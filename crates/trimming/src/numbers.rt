// The numbers that marked steps get: how many marked ones stand before each.
ghost use Rattle.std.specs.Prelude.{◌≡◌, ◌<◌, length};
ghost use Rattle.rules_types.specs.Limits.{steps};
ghost use Rattle.rules.specs.Trim.{count_below};
ghost use Rattle.trimming.specs.Marks.{words, is_marked};
ghost use Rattle.trimming.specs.Numbers.{Counted};

use crate::marks::{BITS, WORDS};

// Before each word.
pub fn count_words(marks: &[u32], before: &mut [u16])
    requires marks_len { length marks.now ≡ words }
    requires before_len { length before.old ≡ words }
    ensures { Counted marks.now before.new }
{
    let mut n: u32 = 0;
    let mut w: usize = 0;
    while w < WORDS {
        before[w] = n as u16;
        n += u32::count_ones(marks[w]);
        w += 1;
    }
}

// Before step i: those before its word, and those of its word below its bit.
pub fn number(marks: &[u32], before: &[u16], i: usize) -> u64
    requires marks_len { length marks.now ≡ words }
    requires counted { Counted marks.now before.now }
    requires i_lt_steps { i < steps }
    ensures { result ≡ count_below (is_marked marks.now) i }
{
    let below = marks[i / BITS] % (1 << (i % BITS));
    before[i / BITS] as u64 + u32::count_ones(below) as u64
}
