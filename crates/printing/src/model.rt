// A model: "marks" with their number, then a line for each; "figures" with their number, then a line for each.
ghost use Rattle.std.specs.Prelude.{[], ◌∷◌, ◌+◌, ◌*◌, ◌≤◌, length};
ghost use Rattle.rules_types.specs.Layout.{model_flags, model_numerators};
ghost use Rattle.rules.specs.Print.{decimal, signed_decimal, print_line, print_model};
ghost use Rattle.printing.specs.Appended.{Appended};
ghost use Rattle.printing.specs.Room.{number_room, booleans_room, rational_room, rationals_room, model_room};
ghost use Rattle.printing.specs.Texts.{flags_text, booleans_text, numerators_text, rationals_text, Printable};

use crate::counts::put_count;
use crate::words::{put_number, put_signed};
use fields::{amount_at, u8_at, u32_at};
use rules_types::layout::{
    MODEL_BOOLEANS, MODEL_FLAGS, model_denominator, model_numerators, model_rationals,
};

// A byte for each of b Boolean variables.
fn put_flags(out: &mut [u8], at: usize, model: &[u8], b: u8) -> usize
    requires b_in_bounds { model_flags + b ≤ length model.now }
    requires b_in_bounds_2 { at + number_room * b ≤ length out.old }
    ensures appended { Appended at (flags_text model.now b) out.old out.new result }
    ensures upper_bound { result ≤ at + number_room * b }
{
    let mut next = at;
    for i in 0..usize::from(b) {
        let value = u8_at(model, MODEL_FLAGS + i);
        next = put_number(out, next, u64::from(value), b'\n');
    }
    next
}

fn put_booleans(out: &mut [u8], at: usize, model: &[u8], b: u8) -> usize
    requires b_in_bounds { model_flags + b ≤ length model.now }
    requires b_in_bounds_2 { at + booleans_room b ≤ length out.old }
    ensures appended { Appended at (booleans_text model.now b) out.old out.new result }
    ensures upper_bound { result ≤ at + booleans_room b }
{
    let next = put_count(out, at, b"marks", u64::from(b));
    put_flags(out, next, model, b)
}

fn put_rational(out: &mut [u8], at: usize, numerator: i64, denominator: u64) -> usize
    requires { at + rational_room ≤ length out.old }
    ensures appended { Appended at (print_line (signed_decimal numerator) (decimal denominator ∷ [])) out.old out.new result }
    ensures upper_bound { result ≤ at + rational_room }
{
    let next = put_signed(out, at, numerator, b' ');
    put_number(out, next, denominator, b'\n')
}

// The numerators, each with the common denominator.
fn put_numerators(out: &mut [u8], at: usize, model: &[u8], b: u8, r: u8) -> usize
    requires r_in_bounds { model_numerators b + 4 * r ≤ length model.now }
    requires r_in_bounds_2 { at + rational_room * r ≤ length out.old }
    ensures appended { Appended at (numerators_text model.now b r) out.old out.new result }
    ensures upper_bound { result ≤ at + rational_room * r }
{
    let denominator = u32_at(model, model_denominator(b));
    let numerators = model_numerators(b);
    let mut next = at;
    for i in 0..usize::from(r) {
        let numerator = amount_at(model, numerators + 4 * i);
        next = put_rational(out, next, numerator, denominator);
    }
    next
}

fn put_rationals(out: &mut [u8], at: usize, model: &[u8], b: u8, r: u8) -> usize
    requires r_in_bounds { model_numerators b + 4 * r ≤ length model.now }
    requires r_in_bounds_2 { at + rationals_room r ≤ length out.old }
    ensures appended { Appended at (rationals_text model.now b r) out.old out.new result }
    ensures upper_bound { result ≤ at + rationals_room r }
{
    let next = put_count(out, at, b"figures", u64::from(r));
    put_numerators(out, next, model, b, r)
}

pub fn put_model(out: &mut [u8], at: usize, model: &[u8]) -> usize
    requires printable { Printable model.now }
    requires model_room_in_bounds { at + model_room ≤ length out.old }
    ensures appended { Appended at (print_model model.now) out.old out.new result }
    ensures upper_bound { result ≤ at + model_room }
{
    let b = u8_at(model, MODEL_BOOLEANS);
    let r = u8_at(model, model_rationals(b));
    let next = put_booleans(out, at, model, b);
    put_rationals(out, next, model, b, r)
}
