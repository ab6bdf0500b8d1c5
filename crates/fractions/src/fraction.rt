// A fraction, a numerator over a denominator, with methods by value. Within the range of amounts 64 bits hold every product.
ghost use Rattle.std.specs.Prelude.{◌≡◌, ◌≤◌, pos, negsuc, nat_abs};
ghost use Rattle.rules.specs.Values.{reduce, quotient, less, midpoint, plus, beyond};
ghost use Rattle.fractions.specs.Meaning.{meaning};
ghost use Rattle.fractions.specs.Range.{Small, Ratio, Scaled};

use machine::gcd::gcd;
use machine::sign::size;
use rules_types::limits::Limits;

#[derive(Clone, Copy)]
pub struct Fraction {
    pub numerator: i64,
    pub denominator: u64,
}

#[tactic(auto, using(crate::proofs::Signed::signed))]
impl Fraction {
    // In lowest terms.
    fn reduce(self) -> Fraction
        requires { Ratio self.numerator self.denominator }
        ensures { meaning result ≡ reduce self.numerator self.denominator }
    {
        let g = gcd(size(self.numerator), self.denominator);
        Fraction {
            numerator: self.numerator / g as i64,
            denominator: self.denominator / g,
        }
    }

    // n / (a × d) in lowest terms: a gathered bound, the other variables over the common denominator d.
    pub fn quotient(n: i64, a: i64, d: u64) -> Fraction
        requires { Scaled n a d }
        ensures { meaning result ≡ quotient n a d }
    {
        let numerator = if a < 0 { -n } else { n };
        let denominator = size(a) * d;
        Fraction {
            numerator,
            denominator,
        }
        .reduce()
    }

    pub fn less(self, other: Fraction) -> bool
        requires { Small (meaning self) × Small (meaning other) }
        ensures { result ≡ less (meaning self) (meaning other) }
    {
        self.numerator * (other.denominator as i64) < other.numerator * (self.denominator as i64)
    }

    pub fn midpoint(self, other: Fraction) -> Fraction
        requires { Small (meaning self) × Small (meaning other) }
        ensures { meaning result ≡ midpoint (meaning self) (meaning other) }
    {
        let numerator = self.numerator * (other.denominator as i64)
            + other.numerator * (self.denominator as i64);
        let denominator = 2 * (self.denominator * other.denominator);
        Fraction {
            numerator,
            denominator,
        }
        .reduce()
    }

    // With 1, 0 or -1 added.
    fn plus(self, z: i64) -> Fraction
        requires { Small (meaning self) × (nat_abs z ≤ 1) }
        ensures { meaning result ≡ plus (meaning self) z }
    {
        let x = Fraction {
            numerator: self.numerator + z * (self.denominator as i64),
            ..self
        };
        x.reduce()
    }

    pub fn plus_one(self) -> Fraction
        requires { Small (meaning self) }
        ensures { meaning result ≡ plus (meaning self) (pos 1) }
    {
        self.plus(1)
    }

    pub fn minus_one(self) -> Fraction
        requires { Small (meaning self) }
        ensures { meaning result ≡ plus (meaning self) (negsuc 0) }
    {
        self.plus(-1)
    }

    // Whether numerator or denominator leaves the range of amounts.
    pub fn beyond(self) -> bool
        ensures { result ≡ beyond (meaning self) }
    {
        Limits::AMOUNT < size(self.numerator) || Limits::AMOUNT < self.denominator
    }
}
