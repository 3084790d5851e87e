// Devices that the demands leave no room for, as theorems: the contract of a function that does nothing.
#![tactic(auto)]

ghost use Rattle.std.specs.Prelude.{◌≡◌, true};
ghost use Rattle.claims_shut_out.specs.Faults.{ShutOut};
ghost use Rattle.claims_shut_out.specs.Wrong.{WrongDevices};

// No machine with one of these faults meets the demands of `claims`.
pub fn shut_out() -> bool
    ensures { (result ≡ true) × ShutOut }
{
    true
}

// There are devices with these faults, each like ours but for one thing.
pub fn wrong_devices() -> bool
    ensures { (result ≡ true) × WrongDevices }
{
    true
}
