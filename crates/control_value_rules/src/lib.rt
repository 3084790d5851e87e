// The values of controls, read and set. They are kept as the 32 bits that a client sees.
#![tactic(auto)]

ghost use Rattle.std.specs.Prelude.{◌≡◌};
ghost use Rattle.control_value_rules.specs.Values.{reading_at, reading, ranged_at, setting_at, setting_of};

use ioctl_table::Refusal;
use sheet_records::{Control, Limits};

// What S_CTRL does: a value stored at a place, or a button pressed.
#[derive(Clone, Copy)]
pub enum Setting {
    Stored(u32, u32),
    Pressed,
}

// One value for each control.
pub type Values = [u32; 32];

// What reading control c, whose value is v, answers. Inlined, for speed, with all that G_CTRL and S_CTRL do: what answers a Result stores it first.
#[inline(always)]
fn reading_at(c: Control, v: u32) -> Result<u32, Refusal>
    ensures { result ≡ reading_at c v }
{
    if c.flags % 2 == 1 {
        return Err(Refusal::ControlDisabled);
    }
    if c.kind == 4 {
        return Err(Refusal::ControlIsButton);
    }
    Ok(v)
}

// The value of the control with this id. The values are lent: a copy would be 128 bytes.
#[inline(always)]
pub fn read(s: &[u8], values: &Values, id: u32) -> Result<u32, Refusal>
    ensures { result ≡ reading s.now values.now id }
{
    let k = control_place_rules::place(s, id).ok_or(Refusal::NoSuchControl)?;
    let v = values[k as usize];
    reading_at(sheet_controls::control_fields(s, k), v)
}

// A value within the limits goes to the nearest of the grid, and is stored at place k.
#[inline(always)]
fn ranged(l: Limits, k: u32, value: u32) -> Result<Setting, Refusal>
    ensures { result ≡ ranged_at l k value }
{
    let v = wire_signed::as_signed(value);
    if v < l.minimum {
        return Err(Refusal::OutOfRange);
    }
    if l.maximum < v {
        return Err(Refusal::OutOfRange);
    }
    let nearest = grid_rules::nearest_value(l, v);
    Ok(Setting::Stored(k, wire_signed::as_bits(nearest)))
}

// What setting control c at place k to a value does.
#[inline(always)]
fn setting_at(c: Control, k: u32, value: u32) -> Result<Setting, Refusal>
    ensures { result ≡ setting_at c k value }
{
    if c.flags % 2 == 1 {
        return Err(Refusal::ControlDisabled);
    }
    if c.flags / 4 % 2 == 1 {
        return Err(Refusal::ControlReadOnly);
    }
    if c.flags / 2 % 2 == 1 {
        return Err(Refusal::ControlGrabbed);
    }
    if c.kind == 4 {
        return Ok(Setting::Pressed);
    }
    ranged(c.limits, k, value)
}

// What setting the control with this id to a value does.
#[inline(always)]
pub fn set(s: &[u8], id: u32, value: u32) -> Result<Setting, Refusal>
    ensures { result ≡ setting_of s.now id value }
{
    let k = control_place_rules::place(s, id).ok_or(Refusal::NoSuchControl)?;
    setting_at(sheet_controls::control_fields(s, k), k, value)
}
