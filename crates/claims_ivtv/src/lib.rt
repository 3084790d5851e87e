// What holds of the embedded packing, told from what goes in and what comes out. Nothing runs here: each function is named after a claim, and
// its contract is the claim. Our machine is made of the definitions that the contracts of `ivtv` cite.
#![tactic(auto)]

ghost use Rattle.std.specs.Prelude.{◌≡◌, true};
ghost use Rattle.claims_ivtv.specs.Packer.{our_packer};
ghost use Rattle.claims_ivtv.specs.Meets.{WriterExact, ReaderExact, ReadBack, WrittenBack, OneBlock, Meets, NoRoom};
ghost use Rattle.claims_ivtv.specs.Wrong.{ShutOut, WrongPackers};

// The writer takes exactly what has no flaw of the list, and refuses the rest with 22, nothing written.
pub fn writer_exact() -> bool
    ensures { (result ≡ true) × WriterExact our_packer }
{
    true
}

// The reader likewise.
pub fn reader_exact() -> bool
    ensures { (result ≡ true) × ReaderExact our_packer }
{
    true
}

// Reading what was written gives the same lines, in the order of their bits and zeroed.
pub fn read_back() -> bool
    ensures { (result ≡ true) × ReadBack our_packer }
{
    true
}

// Writing what was read gives the same block.
pub fn written_back() -> bool
    ensures { (result ≡ true) × WrittenBack our_packer }
{
    true
}

// Each set of lines has one block, and no other set has it.
pub fn one_block() -> bool
    ensures { (result ≡ true) × OneBlock our_packer }
{
    true
}

// All of them together.
pub fn our_packer_meets_them() -> bool
    ensures { (result ≡ true) × Meets our_packer }
{
    true
}

// They leave no room for another.
pub fn no_other_packer() -> bool
    ensures { (result ≡ true) × NoRoom }
{
    true
}

// No machine with one of these faults meets them.
pub fn packing_shut_out() -> bool
    ensures { (result ≡ true) × ShutOut }
{
    true
}

// There are machines with these faults.
pub fn wrong_packers() -> bool
    ensures { (result ≡ true) × WrongPackers }
{
    true
}
