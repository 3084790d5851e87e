// What holds of every list of calls on one stream, from its opening on. Nothing runs here: each function is named after a claim,
// and its contract is the claim.
#![tactic(auto)]

ghost use Rattle.std.specs.Prelude.{◌≡◌, true};
ghost use Rattle.stream_history.specs.Claims.{OnePlace, Mapped, Stores, Returns, AddsUp, Numbers, Verdicts};

// Every buffer is dequeued, incoming or outgoing, and only one of these.
pub fn one_place() -> bool
    ensures { (result ≡ true) × OnePlace }
{
    true
}

// A map count is that of accepted maps less accepted unmaps, and 0 when buffers are granted.
pub fn maps() -> bool
    ensures { (result ≡ true) × Mapped }
{
    true
}

// A buffer handed in with i waiting before it gets the (i+1)th whole arrival.
pub fn stored_in_order() -> bool
    ensures { (result ≡ true) × Stores }
{
    true
}

// With o filled before it, the (o+i+1)th dequeue returns it with that arrival's number, time, length and bytes.
pub fn returned_in_order() -> bool
    ensures { (result ≡ true) × Returns }
{
    true
}

// The arrivals accepted in a run are those handed over, outgoing, damaged, dropped and discarded by its stop.
pub fn adds_up() -> bool
    ensures { (result ≡ true) × AddsUp }
{
    true
}

// The number kept for the next arrival is the count reduced, and no count of a run ends.
pub fn numbers() -> bool
    ensures { (result ≡ true) × Numbers }
{
    true
}

// When the verdict is which.
pub fn verdicts() -> bool
    ensures { (result ≡ true) × Verdicts }
{
    true
}
