// Opening: any bytes as the sheet, any length of each memory.
#![tactic(auto)]

ghost use Rattle.std.specs.Prelude.{◌≡◌};
ghost use Rattle.ioctl_table.specs.Refusal.{number_of};
ghost use Rattle.ioctl_table.specs.declared.refusals.Refusal.{Refusal};
ghost use Rattle.device_opening.specs.Opening.{closed_by, opened_of, made_of, left_by, whole_of};

use device_state::Device;
use ioctl_table::Refusal;

// A refused opening: why, and the closed device that it leaves.
#[derive(Clone, Copy)]
pub struct RefusedOpening {
    pub why: Refusal,
    pub device: Device,
}

// The longest memory of a stream.
const LONGEST: u64 = 1073741824;

// What a refused opening leaves: all numbers are 0.
pub fn closed_device() -> Device
    ensures { (why : Refusal) → whole_of result ≡ (closed_by why).device }
{
    Device {
        sheet: [0; 2688],
        setup: device_state::closed(),
        values: [0; 32],
        video: stream_run::fresh(0),
        captions: stream_run::fresh(0),
        services: [0; 48],
    }
}

// A device for this sheet, with a picture memory and a caption memory of these lengths, or why there is none.
fn opened(sheet: &[u8], pictures: u64, captions: u64) -> Result<Device, Refusal>
    ensures { made_of result ≡ opened_of sheet.now pictures captions }
{
    if !sheet_check::good_sheet(sheet) {
        return Err(Refusal::BadSheet);
    }
    if LONGEST < pictures {
        return Err(Refusal::MemoryTooLong);
    }
    if LONGEST < captions {
        return Err(Refusal::MemoryTooLong);
    }
    let copy = sheet_copy::kept(sheet);
    let setup = device_state::opening(&copy);
    let values = control_opening_rules::at_opening(&copy);
    Ok(Device {
        sheet: copy,
        setup,
        values,
        video: stream_run::fresh(pictures),
        captions: stream_run::fresh(captions),
        services: [0; 48],
    })
}

// The device of an opening; or why there is none, with a closed device.
pub fn open_device(sheet: &[u8], pictures: u64, captions: u64) -> Result<Device, RefusedOpening>
    ensures { left_by result ≡ opened_of sheet.now pictures captions }
{
    match opened(sheet, pictures, captions) {
        Ok(device) => Ok(device),
        Err(why) => Err(RefusedOpening {
            why,
            device: closed_device(),
        }),
    }
}

// An opening over a device, whatever it held before: it is the one that was made, or a closed one. Not by `open_device`, for speed: a device in each
// case of a result is copied once more.
pub fn open(d: &mut Device, sheet: &[u8], pictures: u64, captions: u64) -> Result<(), Refusal>
    ensures { (number_of result ≡ (opened_of sheet.now pictures captions).number) × (whole_of d.new ≡ (opened_of sheet.now pictures captions).device) }
{
    match opened(sheet, pictures, captions) {
        Ok(device) => {
            *d = device;
            Ok(())
        }
        Err(why) => {
            *d = closed_device();
            Err(why)
        }
    }
}
