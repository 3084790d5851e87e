// What the demands of `claims` say together: what a client may read from DQBUF, what a walk of all sizes gives, that a crop keeps the fields
// apart, that what is mapped is not granted anew, that our device meets all of them, and that they leave no room. As there, nothing runs: each function is named after a claim, and
// its contract is the claim.
#![tactic(auto)]

ghost use Rattle.std.specs.Prelude.{◌≡◌, true, List, ℕ};
ghost use Rattle.claims.specs.Calls.{Kind};
ghost use Rattle.claims.specs.Device.{machine_of, our_device};
ghost use Rattle.claims_together.specs.Waiting.{StoppedOrIdle};
ghost use Rattle.claims_together.specs.Sizes.{NearestSizes};
ghost use Rattle.claims_together.specs.Crops.{FieldsApart};
ghost use Rattle.claims_together.specs.Mapped.{MapsKept};
ghost use Rattle.claims_together.specs.Meets.{Meets};
ghost use Rattle.claims_together.specs.NoRoom.{NoRoom};

// Of each stream: a DQBUF that is answered 11 is one to be asked again soon: a run is on and there are buffers. Outside a run it gives 22.
pub fn stopped_or_idle() -> bool
    ensures { (result ≡ true) × ((s : List ℕ) (m : Kind → List ℕ) (k : Kind) → StoppedOrIdle (machine_of our_device s m) k) }
{
    true
}

// TRY_FMT and S_FMT of pictures answer the sizes that a walk of the whole grid gives: of all allowed ones the nearest, the smaller on a tie.
pub fn nearest_sizes() -> bool
    ensures { (result ≡ true) × ((s : List ℕ) (m : Kind → List ℕ) → NearestSizes s (machine_of our_device s m)) }
{
    true
}

// What G_CROP tells lies inside the bounds that CROPCAP tells, with its top at an even distance from theirs: at opening, and after every call.
pub fn fields_apart() -> bool
    ensures { (result ≡ true) × ((s : List ℕ) (m : Kind → List ℕ) → FieldsApart (machine_of our_device s m)) }
{
    true
}

// Of each stream: buffers are granted only when every place has been unmapped as often as it was mapped, and flag 1 tells which places have not.
pub fn maps_kept() -> bool
    ensures { (result ≡ true) × ((s : List ℕ) (m : Kind → List ℕ) (k : Kind) → MapsKept (machine_of our_device s m) k) }
{
    true
}

// All of them together.
pub fn our_device_meets_them() -> bool
    ensures { (result ≡ true) × Meets (machine_of our_device) }
{
    true
}

// They leave no room: no other machine meets them, whatever it is made of.
pub fn no_room() -> bool
    ensures { (result ≡ true) × NoRoom }
{
    true
}
