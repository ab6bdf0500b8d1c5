// Whether a literal holds.
ghost use Rattle.std.specs.Prelude.{◌≡◌, false, get_or};
ghost use Rattle.rules_types.specs.Limits.{all_booleans};
ghost use Rattle.rules.specs.Meaning.{literal_holds};
ghost use Rattle.masks.specs.Mask.{bits};
ghost use Rattle.problem_clauses.specs.Literals.{literal_of};
ghost use Rattle.models.specs.Model.{assignment};

use masks::member;
use models::model::Model;
use rules_types::limits::Limits;

// Whether a Boolean variable is yes; those from 32 on are no.
fn is_yes(mask: u32, i: usize) -> bool
    ensures { result ≡ get_or (bits all_booleans mask) i false }
{
    i < Limits::ALL_BOOLEANS && member(mask, i)
}

// "the mark's number, plus 128 if negated"
pub fn literal_holds(code: u8, model: Model) -> bool
    ensures { result ≡ literal_holds (assignment model) (literal_of code) }
{
    let yes = is_yes(model.booleans, (code % 128) as usize);
    if 128 <= code { !yes } else { yes }
}
