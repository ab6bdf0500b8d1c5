// An assignment in machine words.

use rules_types::limits::Limits;

#[derive(Clone, Copy)]
pub struct Model {
    // Bit i: Boolean variable i is yes.
    pub booleans: u32,
    // Rational variable f is its numerator over the denominator.
    pub numerators: [i64; Limits::RATIONALS],
    pub denominator: u32,
}
