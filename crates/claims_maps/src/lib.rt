// Faults of the maps that no machine has which meets the demands, and devices that have them. As in `claims`, nothing runs: each function is named
// after a claim, and its contract is the claim.
#![tactic(auto)]

ghost use Rattle.std.specs.Prelude.{◌≡◌, true};
ghost use Rattle.claims_maps.specs.Faults.{MapFaults};
ghost use Rattle.claims_maps.specs.Devices.{MapDevices};

// No machine with one of these faults meets the demands.
pub fn map_faults() -> bool
    ensures { (result ≡ true) × MapFaults }
{
    true
}

// There are devices with these faults, each like ours but for one thing.
pub fn map_devices() -> bool
    ensures { (result ≡ true) × MapDevices }
{
    true
}
