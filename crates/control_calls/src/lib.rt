// The requests that read and set the value of a control. Each takes an argument of the length that its word says, and answers any other as far as it reaches.
// Inlined where the length of the argument was tested, for speed: the compiler then knows it.
#![tactic(auto)]

ghost use Rattle.std.specs.Prelude.{◌≡◌, set};
ghost use Rattle.ioctl_table.specs.Refusal.{number_of};
ghost use Rattle.device_state.specs.State.{State, with_values};
ghost use Rattle.device_state.specs.Answers.{answer};
ghost use Rattle.control_calls.specs.Controls.{g_ctrl_of, s_ctrl_of};

use control_value_rules::{Setting, Values};
use ioctl_table::Refusal;

// The value of a control.
#[inline(always)]
pub fn g_ctrl(sheet: &[u8], values: &Values, argument: &mut [u8]) -> Result<(), Refusal>
    ensures { (d : State) → answer (number_of result) (with_values d values.now) argument.new ≡ g_ctrl_of sheet.now (with_values d values.now) argument.old }
{
    let id = wire_read::word_at(argument, 0);
    let v = control_value_rules::read(sheet, values, id)?;
    control_replies::put_value(argument, id, v);
    Ok(())
}

// A value kept for control k. Past the last place nothing is kept. The test is by hand: with `get_mut` in its place the proof didn't close.
fn keep(values: &mut [u32], k: u32, v: u32)
    ensures { values.new ≡ set values.old k v }
{
    let at = k as usize;
    if at < values.len() {
        values[at] = v;
    }
}

// Another value for a control. A button leaves the argument.
#[inline(always)]
pub fn s_ctrl(sheet: &[u8], values: &mut Values, argument: &mut [u8]) -> Result<(), Refusal>
    ensures { (d : State) → answer (number_of result) (with_values d values.new) argument.new ≡ s_ctrl_of sheet.now (with_values d values.old) argument.old }
{
    let id = wire_read::word_at(argument, 0);
    let setting = control_value_rules::set(sheet, id, wire_read::word_at(argument, 4))?;
    match setting {
        Setting::Stored(k, v) => {
            keep(values, k, v);
            control_replies::put_value(argument, id, v);
            Ok(())
        }
        Setting::Pressed => Ok(()),
    }
}
