// Sums of coefficient × numerator over a row.
ghost use Rattle.std.specs.Prelude.{◌≡◌};
ghost use Rattle.rules.specs.Arithmetic.{sum};
ghost use Rattle.theory_vectors.specs.Amounts.{Amounts};
ghost use Rattle.models.specs.Model.{value};

use rows::product::plus_product;
use rules_types::limits::Limits;

pub fn sum(row: [i64; Limits::RATIONALS], numerators: [i64; Limits::RATIONALS]) -> i64
    requires amounts { Amounts row }
    requires amounts_2 { Amounts numerators }
    ensures { result ≡ sum row (value numerators) }
{
    let mut total = 0;
    for i in 0..Limits::RATIONALS {
        total = plus_product(total, row[i], numerators[i]);
    }
    total
}
