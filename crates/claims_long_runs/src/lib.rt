// Runs that outlast the number of a frame, which has 32 bits: what every machine that meets the demands answers then, and devices that go wrong
// only there. As in `claims`, nothing runs: each function is named after a claim, and its contract is the claim.
#![tactic(auto)]

ghost use Rattle.std.specs.Prelude.{◌≡◌, true};
ghost use Rattle.claims_long_runs.specs.Films.{EachOnce, LongFilms};
ghost use Rattle.claims_long_runs.specs.Late.{LateFaults, LateDevices};

// Films of every length up to the limit of a run, on the bench: their numbers, their end, and their verdict, of each stream.
pub fn long_films() -> bool
    ensures { (result ≡ true) × LongFilms }
{
    true
}

// Of a COMPLETE film each arrival was handed over, and once, told apart by its place in the run: none passes for another with the same number.
pub fn each_once() -> bool
    ensures { (result ≡ true) × EachOnce }
{
    true
}

// No machine with one of these faults meets the demands.
pub fn late_faults() -> bool
    ensures { (result ≡ true) × LateFaults }
{
    true
}

// There are devices with these faults, each like ours for as long as no run has 4,294,967,295 arrivals.
pub fn late_devices() -> bool
    ensures { (result ≡ true) × LateDevices }
{
    true
}
