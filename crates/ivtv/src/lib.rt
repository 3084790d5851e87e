// Caption lines inside a film: the block of 001's embedded packing, written from records of 64 bytes, and read back. No device is in it.
#![tactic(auto)]

ghost use Rattle.std.specs.Prelude.{◌≡◌, length};
ghost use Rattle.ioctl_table.specs.Refusal.{number_of};
ghost use Rattle.ivtv_rules.specs.Writing.{pack_number, packed};
ghost use Rattle.ivtv_rules.specs.Reading.{unpack_number, unpacked};

use ioctl_table::Refusal;

// Records of 64 bytes, in any order, packed into a block of exactly their length; or refused, and nothing written.
pub fn pack(lines: &[u8], block: &mut [u8]) -> Result<(), Refusal>
    ensures { (number_of result ≡ pack_number lines.now (length block.old)) × (block.new ≡ packed lines.now block.old) }
{
    if ivtv_writer::write(lines, block) {
        return Ok(());
    }
    Err(Refusal::BadLines)
}

// A block read into records of 64 bytes, in the order of their bits, of exactly their length; or refused, and nothing written.
pub fn unpack(block: &[u8], lines: &mut [u8]) -> Result<(), Refusal>
    ensures { (number_of result ≡ unpack_number block.now (length lines.old)) × (lines.new ≡ unpacked block.now lines.old) }
{
    if ivtv_reader::read(block, lines) {
        return Ok(());
    }
    Err(Refusal::BadBlock)
}
