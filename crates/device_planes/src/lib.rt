// The planes of a picture, by the format in force.
#![tactic(auto)]

ghost use Rattle.std.specs.Prelude.{◌≡◌, length, IfOk, IfErr};
ghost use Rattle.device_state.specs.Setup.{setup_in};
ghost use Rattle.device_state.specs.State.{State, with_setup};
ghost use Rattle.plane_rules.specs.Planes.{no_place};
ghost use Rattle.device_planes.specs.Planes.{device_place, device_plane};

use device_state::SetupWords;
use ioctl_table::Refusal;
use plane_rules::Place;

// Where plane k of a frame of so many bytes lies, by the present format; or no bytes, and 22.
pub fn plane_place(sheet: &[u8], setup: &SetupWords, bytes: usize, k: u32) -> Place
    ensures { (d : State) → result ≡ device_place sheet.now (with_setup d (setup_in setup.now)) bytes k }
{
    if setup[device_state::READY] == 0 {
        let number = u32::from(Refusal::Closed);
        return Place {
            number,
            start: 0,
            length: 0,
        };
    }
    let f = device_setup::format_in(setup);
    plane_rules::plane_place(f, sheet_geometry::line_alignment(sheet), bytes, k)
}

// Plane k of a frame of the present format: that part of the frame itself.
pub fn plane<'a>(
    sheet: &[u8],
    setup: &SetupWords,
    frame: &'a [u8],
    k: u32,
) -> Result<&'a [u8], Refusal>
    ensures part { (d : State) → IfOk result (λ p. (p.now ≡ device_plane sheet.now (with_setup d (setup_in setup.now)) frame.now k)
        × ((device_place sheet.now (with_setup d (setup_in setup.now)) (length frame.now) k).number ≡ 0)) }
    ensures refusal { (d : State) → IfErr result (λ why. device_place sheet.now (with_setup d (setup_in setup.now)) (length frame.now) k ≡ no_place why) }
{
    if setup[device_state::READY] == 0 {
        return Err(Refusal::Closed);
    }
    let f = device_setup::format_in(setup);
    plane_rules::plane(f, sheet_geometry::line_alignment(sheet), frame, k)
}
