// What holds of our device, whatever it is asked, told from calls and answers alone. Nothing runs here: each function is named after a
// claim, and its contract is the claim, of the machine that the definitions make which the contracts of `device_requests`, `device_opening`, `device_film` and `device_planes` cite.
#![tactic(auto)]

ghost use Rattle.std.specs.Prelude.{◌≡◌, true, List, ℕ};
ghost use Rattle.claims.specs.Calls.{Kind};
ghost use Rattle.claims.specs.Demands.{Demand1, Demand2, Demand3, Counts, Answers};
ghost use Rattle.claims.specs.Device.{machine_of, our_device};

// Every call has an answer, by the refusal table; a refusal leaves no trace.
pub fn demand_1() -> bool
    ensures { (result ≡ true) × ((s : List ℕ) (m : Kind → List ℕ) → Demand1 s m (machine_of our_device s m)) }
{
    true
}

// Trying a format leaves no trace and predicts, byte for byte, what setting it answers: of pictures the nearest sizes and the code asked or the
// first, of captions all the services that fit.
pub fn demand_2() -> bool
    ensures { (result ≡ true) × ((s : List ℕ) (m : Kind → List ℕ) → Demand2 s (machine_of our_device s m)) }
{
    true
}

// Of each stream: a buffer handed in gets its arrival and comes back with exactly that; the film is COMPLETE exactly when all arrivals of the last run were
// whole, stored and handed over; and nothing else is ever written.
pub fn demand_3() -> bool
    ensures { (result ≡ true) × ((s : List ℕ) (m : Kind → List ℕ) (k : Kind) → Demand3 s m (machine_of our_device s m) k) }
{
    true
}

// Of each stream: the counts add up and are those told; each buffer is in one place; each verdict is given exactly when the paper says.
pub fn counts() -> bool
    ensures { (result ≡ true) × ((s : List ℕ) (m : Kind → List ℕ) (k : Kind) → Counts s (machine_of our_device s m) k) }
{
    true
}

// Every call that is accepted, and every plane, is answered by the sheet, the calls before and their answers.
pub fn answers() -> bool
    ensures { (result ≡ true) × ((s : List ℕ) (m : Kind → List ℕ) → Answers s m (machine_of our_device s m)) }
{
    true
}
