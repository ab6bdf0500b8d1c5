// The order of rounds: "Turn numbers run from 0 to 39: turns 0 to 7 belong to the figures and 8 to 39 to the marks."
ghost use Rattle.std.specs.Prelude.{◌≡◌, ◌≤◌, ◌<◌, get_or};
ghost use Rattle.rules_types.specs.Limits.{all_booleans, rationals};
ghost use Rattle.theory_saturation.specs.Order.{Ordered, rising};
ghost use Rattle.lines.specs.Order.{variables_of, moved_to, rational_round, boolean_round, IsRound, ScheduledRational};

use rules_types::limits::Limits;

#[derive(Clone, Copy)]
pub enum Variable {
    Rational(usize),
    Boolean(usize),
}

// What a number of a round stands for: a variable to eliminate, or the end.
#[derive(Clone, Copy)]
pub enum Round {
    Of(Variable),
    End,
}

// The order of a run: the rational variables by their rounds. The Boolean ones follow by their numbers.
#[derive(Clone, Copy)]
pub struct Order {
    pub rationals: [u8; Limits::RATIONALS],
}

// A variable's round in the order of a run.
#[derive(Clone, Copy)]
pub struct VariableRound {
    pub order: Order,
    pub number: usize,
    pub variable: Variable,
}

// A rational variable's.
#[derive(Clone, Copy)]
pub struct RationalRound {
    pub order: Order,
    pub number: usize,
    pub rational: usize,
}

impl Order {
    // The rational variables by their numbers.
    pub fn rising() -> Order
        ensures rationals_value { result.rationals ≡ rising }
        ensures ordered { Ordered (variables_of result) }
    {
        Order {
            rationals: [0, 1, 2, 3, 4, 5, 6, 7],
        }
    }

    // The rational variable of round `from` gets round `to`, an earlier one; those from there on come one round later.
    pub fn moved(self, from: usize, to: usize) -> Order
        requires to_le_from { to ≤ from }
        requires from_lt_rationals { from < rationals }
        ensures { result.rationals ≡ moved_to from to self.rationals }
    {
        let mut list = self.rationals;
        let f = list[from];
        let mut j = from;
        while j > to {
            list[j] = list[j - 1];
            j -= 1;
        }
        list[to] = f;
        Order { rationals: list }
    }

    // The rational variable of round t.
    pub fn rational(self, t: usize) -> usize
        requires ordered { Ordered (variables_of self) }
        requires t_lt_rationals { t < rationals }
        ensures value { result ≡ get_or self.rationals t 0 }
        ensures upper_bound { result < rationals }
    {
        self.rationals[t] as usize
    }

    // Round t, as that of its rational variable.
    pub fn rational_round(self, t: usize) -> RationalRound
        requires ordered { Ordered (variables_of self) }
        requires t_lt_rationals { t < rationals }
        ensures value { result ≡ rational_round self t }
        ensures scheduled_rational { ScheduledRational result }
    {
        RationalRound {
            order: self,
            number: t,
            rational: self.rational(t),
        }
    }

    pub fn round_at(self, t: usize) -> Round
        requires { Ordered (variables_of self) }
        ensures { IsRound (variables_of self) t result }
    {
        match t {
            0..=7 => Round::Of(Variable::Rational(self.rational(t))),
            8..=39 => Round::Of(Variable::Boolean(t - 8)),
            _ => Round::End,
        }
    }
}

// The number of Boolean variable i's round; of the end, where i is one past the last.
pub fn boolean_round(i: usize) -> usize
    requires { i ≤ all_booleans }
    ensures { result ≡ boolean_round i }
{
    Limits::RATIONALS + i
}
