// Carrying over and back, for C.
ghost use Rattle.std.specs.Prelude.{◌≡◌};
ghost use Rattle.rules.specs.Convert.{convert, carry_back};
ghost use Rattle.jemuling.specs.Told.{converted_told, carried_told};
ghost use Rattle.jemuling.specs.Promised.{ProblemConverted, ModelCarriedBack};

use jemuling::carrying;
use jemuling::told::Told;

// The problem in the second edition that has a solution exactly if the first-edition problem has one.
#[unsafe(no_mangle)]
pub extern "C" fn jemuling_convert(input: &[u8], output: &mut [u8]) -> Told
    ensures value { result ≡ converted_told (convert input.now output.old).converted }
    ensures output_after { output.new ≡ (convert input.now output.old).output }
    ensures problem_converted { ProblemConverted input.now output.old result output.new }
{
    carrying::jemuling_convert(input, output)
}

// The model of the first-edition problem that a model of the new one comes to.
#[unsafe(no_mangle)]
pub extern "C" fn jemuling_carry_back(input: &[u8], model: &[u8], target: &mut [u8]) -> Told
    ensures value { result ≡ carried_told (carry_back input.now model.now target.old).carried }
    ensures target_after { target.new ≡ (carry_back input.now model.now target.old).model }
    ensures model_carried_back { ModelCarriedBack input.now model.now target.old result target.new }
{
    carrying::jemuling_carry_back(input, model, target)
}
