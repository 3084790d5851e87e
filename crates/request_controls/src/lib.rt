// The requests about the controls: the argument's length is tested, and the call goes to its handler.
#![tactic(auto)]

ghost use Rattle.std.specs.Prelude.{◌≡◌};
ghost use Rattle.request_topics.specs.declared.About.TheVariants.{Controls};
ghost use Rattle.ioctl_table.specs.Refusal.{number_of};
ghost use Rattle.device_state.specs.State.{State, with_values};
ghost use Rattle.device_state.specs.Answers.{answer};
ghost use Rattle.request_topics.specs.Request.{on_topic};

use control_value_rules::Values;
use ioctl_table::{Call, Refusal};

// A call about the controls, with any argument. Each arm tests the length against a number of its own, for speed: the compiler then knows
// it in all that the arm calls.
pub fn control_request(
    call: Call,
    sheet: &[u8],
    values: &mut Values,
    argument: &mut [u8],
) -> Result<(), Refusal>
    ensures { (d : State) → answer (number_of result) (with_values d values.new) argument.new
        ≡ on_topic Controls call sheet.now (with_values d values.old) argument.old }
{
    match call {
        Call::GCtrl => {
            request_topics::of_length(argument, 8)?;
            control_calls::g_ctrl(sheet, values, argument)
        }
        Call::SCtrl => {
            request_topics::of_length(argument, 8)?;
            control_calls::s_ctrl(sheet, values, argument)
        }
        Call::Queryctrl => {
            request_topics::of_length(argument, 68)?;
            control_query_calls::queryctrl(sheet, argument)
        }
        _ => Err(Refusal::UnknownWord),
    }
}
