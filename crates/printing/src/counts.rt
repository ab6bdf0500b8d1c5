// Lines of numbers, and of a word and numbers.
ghost use Rattle.std.specs.Prelude.{[], ◌∷◌, ◌+◌, ◌≤◌, length};
ghost use Rattle.rules.specs.Print.{decimal, print_line, print_refusal};
ghost use Rattle.printing.specs.Appended.{Appended};
ghost use Rattle.printing.specs.Room.{pair_room, count_room, counts_room, refusal_room};

use crate::words::{put_number, put_word};
use rules_types::answers::Refusal;

// Two numbers.
pub fn put_pair(out: &mut [u8], at: usize, a: u64, b: u64) -> usize
    requires { at + pair_room ≤ length out.old }
    ensures appended { Appended at (print_line (decimal a) (decimal b ∷ [])) out.old out.new result }
    ensures upper_bound { result ≤ at + pair_room }
{
    let next = put_number(out, at, a, b' ');
    put_number(out, next, b, b'\n')
}

// A word and a number.
pub fn put_count(out: &mut [u8], at: usize, word: &[u8], n: u64) -> usize
    requires { at + length word.now + count_room ≤ length out.old }
    ensures appended { Appended at (print_line word.now (decimal n ∷ [])) out.old out.new result }
    ensures upper_bound { result ≤ at + length word.now + count_room }
{
    let next = put_word(out, at, word, b' ');
    put_number(out, next, n, b'\n')
}

// A word and two numbers.
pub fn put_counts(out: &mut [u8], at: usize, word: &[u8], a: u64, b: u64) -> usize
    requires { at + length word.now + counts_room ≤ length out.old }
    ensures appended { Appended at (print_line word.now (decimal a ∷ decimal b ∷ [])) out.old out.new result }
    ensures upper_bound { result ≤ at + length word.now + counts_room }
{
    let next = put_word(out, at, word, b' ');
    put_pair(out, next, a, b)
}

// "refused with number, place, pairs"
pub fn put_refusal(out: &mut [u8], at: usize, f: Refusal, place: usize, pairs: u64) -> usize
    requires { at + refusal_room ≤ length out.old }
    ensures appended { Appended at (print_refusal f place pairs) out.old out.new result }
    ensures upper_bound { result ≤ at + refusal_room }
{
    let number = f.number();
    let first = put_word(out, at, b"refused", b' ');
    let second = put_number(out, first, u64::from(number), b' ');
    put_pair(out, second, place as u64, pairs)
}
