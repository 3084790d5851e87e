// G_FMT, S_FMT and TRY_FMT of sliced lines, and G_SLICED_VBI_CAP. Each takes an argument of the length that its word says, and answers any
// other as far as it reaches. Whoever calls the first three has tested the type, and says which it is.
// Inlined where the length of the argument was tested, for speed: the compiler then knows it.
#![tactic(auto)]

ghost use Rattle.std.specs.Prelude.{◌≡◌, List, ℕ};
ghost use Rattle.ioctl_table.specs.Refusal.{number_of};
ghost use Rattle.service_calls.specs.Services.{services_answer, g_services_of, s_services_of, try_services_of, services_capability_of};

use ioctl_table::Refusal;
use service_rules::Lines;

// The type of sliced capture.
const SLICED: u32 = 6;

// The services in force.
#[inline(always)]
pub fn g_fmt(lines: &Lines, kind: u32, argument: &mut [u8])
    ensures { services_answer 0 lines.now argument.new ≡ g_services_of kind lines.now argument.old }
{
    service_replies::put_services(argument, kind, lines);
}

// Other services, while there are no buffers; so many are granted.
#[inline(always)]
pub fn s_fmt(lines: &mut Lines, kind: u32, granted: u64, argument: &mut [u8]) -> Result<(), Refusal>
    ensures { services_answer (number_of result) lines.new argument.new ≡ s_services_of kind granted lines.old argument.old }
{
    if granted != 0 {
        return Err(Refusal::BuffersExist);
    }
    let fitting = service_wishes::asked_services(argument);
    service_replies::put_services(argument, kind, &fitting);
    *lines = fitting;
    Ok(())
}

// The services that S_FMT would set.
#[inline(always)]
pub fn try_fmt(kind: u32, argument: &mut [u8])
    ensures { (l : List ℕ) → services_answer 0 l argument.new ≡ try_services_of kind l argument.old }
{
    let fitting = service_wishes::asked_services(argument);
    service_replies::put_services(argument, kind, &fitting);
}

// What the device can do with sliced lines.
#[inline(always)]
pub fn g_sliced_vbi_cap(argument: &mut [u8]) -> Result<(), Refusal>
    ensures { (l : List ℕ) → services_answer (number_of result) l argument.new ≡ services_capability_of l argument.old }
{
    if wire_read::word_at(argument, 100) != SLICED {
        return Err(Refusal::WrongType);
    }
    service_replies::put_services_capability(argument, SLICED);
    Ok(())
}
