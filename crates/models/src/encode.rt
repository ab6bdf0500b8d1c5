// The 64 bytes of a model: "b; b bytes of 0 or 1; r; four bytes denominator; r numerators of four bytes; zeros"; 02, (iv): 2 of an open
// variable, one that is not in the mask `occurring`.
ghost use Rattle.std.specs.Prelude.{◌≡◌, false, ◌++◌, ◌+◌, ◌*◌, ◌≤◌, ◌<◌, length, get_or, drop};
ghost use Rattle.rules_types.specs.Layout.{model_flags};
ghost use Rattle.rules_types.specs.Limits.{all_booleans, booleans, model_bytes, rationals};
ghost use Rattle.rules.specs.Lists.{tabulate};
ghost use Rattle.rules.specs.Bytes.{amount_bytes};
ghost use Rattle.rules.specs.Model.{boolean_byte, encode_model};
ghost use Rattle.fields.specs.Field.{stored};
ghost use Rattle.masks.specs.Mask.{bits, outside};
ghost use Rattle.theory_vectors.specs.Amounts.{Amounts};
ghost use Rattle.models.specs.Model.{value, assignment};
ghost use Rattle.models.specs.Encoded.{flag_bytes};

use crate::model::Model;
use fields::{put_amount, put_bytes, put_u32};
use masks::member;
use rules_types::layout::{
    MODEL_BOOLEANS, MODEL_FLAGS, model_denominator, model_numerators, model_rationals,
};
use rules_types::limits::Limits;

#[tactic(auto, unfolding(rules::specs::Model::boolean_byte, masks::specs::Mask::outside))]
fn boolean_byte(mask: u32, occurring: u32, i: usize) -> u8
    requires { i < all_booleans }
    ensures { result ≡ boolean_byte (outside occurring i) (get_or (bits all_booleans mask) i false) }
{
    if !member(occurring, i) {
        return 2;
    }
    if member(mask, i) {
        return 1;
    }
    0
}

fn put_booleans(s: &mut [u8], b: u8, mask: u32, occurring: u32)
    requires b_le_booleans { b ≤ booleans }
    requires booleans_in_bounds { model_flags + booleans ≤ length s.old }
    ensures { s.new ≡ stored model_flags (flag_bytes b mask occurring) s.old }
{
    for i in 0..b as usize {
        s[MODEL_FLAGS + i] = boolean_byte(mask, occurring, i);
    }
}

fn put_numerators(s: &mut [u8], at: usize, r: u8, numerators: [i64; Limits::RATIONALS])
    requires r_le_rationals { r ≤ rationals }
    requires rationals_bound { at + 4 * rationals ≤ model_bytes }
    requires model_bytes_in_bounds { model_bytes ≤ length s.old }
    requires amounts { Amounts numerators }
    ensures { s.new ≡ stored at (amount_bytes (tabulate r (value numerators))) s.old }
{
    for i in 0..r as usize {
        put_amount(s, at + 4 * i, numerators[i]);
    }
}

fn encode_model(b: u8, r: u8, occurring: u32, model: Model) -> [u8; Limits::MODEL_BYTES]
    requires b_le_booleans { b ≤ booleans }
    requires r_le_rationals { r ≤ rationals }
    requires amounts { Amounts model.numerators }
    ensures { result ≡ encode_model b r (outside occurring) (assignment model) }
{
    let mut bytes = [0u8; Limits::MODEL_BYTES];
    bytes[MODEL_BOOLEANS] = b;
    put_booleans(&mut bytes, b, model.booleans, occurring);
    bytes[model_rationals(b)] = r;
    put_u32(&mut bytes, model_denominator(b), model.denominator as u64);
    put_numerators(&mut bytes, model_numerators(b), r, model.numerators);
    bytes
}

pub fn write_model(buffer: &mut [u8], b: u8, r: u8, occurring: u32, model: Model)
    requires model_bytes_in_bounds { model_bytes ≤ length buffer.old }
    requires b_le_booleans { b ≤ booleans }
    requires r_le_rationals { r ≤ rationals }
    requires amounts { Amounts model.numerators }
    ensures { buffer.new
        ≡ encode_model b r (outside occurring) (assignment model) ++ drop model_bytes buffer.old }
{
    let bytes = encode_model(b, r, occurring, model);
    put_bytes(buffer, 0, &bytes);
}
