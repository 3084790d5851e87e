// The request for what a control is like. It takes an argument of the length that its word says, and answers any other as far as it reaches.
// Inlined where the length of the argument was tested, for speed: the compiler then knows it.
#![tactic(auto)]

ghost use Rattle.std.specs.Prelude.{◌≡◌};
ghost use Rattle.ioctl_table.specs.Refusal.{number_of};
ghost use Rattle.device_state.specs.State.{State};
ghost use Rattle.device_state.specs.Answers.{answer};
ghost use Rattle.control_query_calls.specs.Query.{queryctrl_of};

use ioctl_table::Refusal;

// The control of an id, or with bit 31 the one of the next higher id.
#[inline(always)]
pub fn queryctrl(sheet: &[u8], argument: &mut [u8]) -> Result<(), Refusal>
    ensures { (d : State) → answer (number_of result) d argument.new ≡ queryctrl_of sheet.now d argument.old }
{
    let found = control_place_rules::queried(sheet, wire_read::word_at(argument, 0));
    let Some(k) = found else {
        return Err(Refusal::NoSuchControl);
    };
    control_replies::put_control(argument, sheet, k);
    Ok(())
}
