// The program: solves the problem on standard input, and prints the answer as document 01 says (`printed` in rules/Print).
#![tactic(auto)]

use answer_text::answer::{TEXT_BYTES, answer_text};
use rules_types::limits::Limits;

// One byte more than a problem may have tells that it is too long.
fn main() {
    let mut input = [0u8; Limits::PROBLEM_BYTES + 1];
    let n = io::read_full(0, &mut input);
    let mut text = [0u8; TEXT_BYTES];
    let k = answer_text(&input[..n], &mut text);
    io::write_all(1, &text[..k]);
}
