// 02, (vi): the calls that carry a first-edition problem over, and a model of the new problem back. They name no edition.
ghost use Rattle.std.specs.Prelude.{◌≡◌};
ghost use Rattle.rules.specs.Convert.{convert, carry_back};
ghost use Rattle.jemuling.specs.Told.{converted_told, carried_told};
ghost use Rattle.jemuling.specs.Promised.{ProblemConverted, ModelCarriedBack};

use crate::told::{Told, carried_told, converted_told};
use carrying_back::carry::carry_back;
use conversion::convert::convert;

// The problem in the second edition that has a solution exactly if the first-edition problem has one.
pub fn jemuling_convert(input: &[u8], output: &mut [u8]) -> Told
    ensures value { result ≡ converted_told (convert input.now output.old).converted }
    ensures output_after { output.new ≡ (convert input.now output.old).output }
    ensures problem_converted { ProblemConverted input.now output.old result output.new }
{
    converted_told(convert(input, output))
}

// The model of the first-edition problem that a model of the new one comes to.
pub fn jemuling_carry_back(input: &[u8], model: &[u8], target: &mut [u8]) -> Told
    ensures value { result ≡ carried_told (carry_back input.now model.now target.old).carried }
    ensures target_after { target.new ≡ (carry_back input.now model.now target.old).model }
    ensures model_carried_back { ModelCarriedBack input.now model.now target.old result target.new }
{
    carried_told(carry_back(input, model, target))
}
