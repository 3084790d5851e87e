// The device for programs in C, and the packing of caption lines, which needs none: include/tollgutter.h declares the functions that this crate
// exports. The caller owns the device and lends it to each call, which lends its arrays on. A device is numbers only, so that every content
// of it is one that the contracts speak of.
#![tactic(auto)]

ghost use Rattle.std.specs.Prelude.{◌≡◌, length};
ghost use Rattle.stream_words.specs.Words.{time_of};
ghost use Rattle.arrival_replies.specs.Answer.{told_of};
ghost use Rattle.request_topics.specs.Request.{request_answer};
ghost use Rattle.stream_maps.specs.declared.Change.TheVariants.{Map, Unmap};
ghost use Rattle.device_film.specs.Film.{taken_of, taken_memory};
ghost use Rattle.device_maps.specs.Mapping.{mapped_of};
ghost use Rattle.device_planes.specs.Planes.{device_place};
ghost use Rattle.device_opening.specs.Opening.{opened_of, whole_of};
ghost use Rattle.device_numbers.specs.Told.{verdict_told};
ghost use Rattle.ivtv_rules.specs.Block.{block_length};
ghost use Rattle.ivtv_rules.specs.Writing.{pack_number, packed};
ghost use Rattle.ivtv_rules.specs.Reading.{unpack_number, unpacked};

use arrival_replies::Told;
use device_state::Device;
use plane_rules::Place;
use stream_maps::Change;

// A device for this sheet, with a picture memory and a caption memory of these lengths; what d held before does not matter.
#[unsafe(no_mangle)]
pub extern "C" fn tg_open(d: &mut Device, sheet: &[u8], pictures: u64, captions: u64) -> u32
    ensures { (result ≡ (opened_of sheet.now pictures captions).number) × (whole_of d.new ≡ (opened_of sheet.now pictures captions).device) }
{
    ioctl_table::number(device_opening::open(d, sheet, pictures, captions))
}

// A request: any word, any argument.
#[unsafe(no_mangle)]
pub extern "C" fn tg_request(d: &mut Device, word: u32, argument: &mut [u8]) -> u32
    ensures { (result ≡ (request_answer d.old.sheet (whole_of d.old).state word argument.old).number)
        × ((whole_of d.new).state ≡ (request_answer d.old.sheet (whole_of d.old).state word argument.old).state)
        × (d.new.sheet ≡ d.old.sheet)
        × (argument.new ≡ (request_answer d.old.sheet (whole_of d.old).state word argument.old).argument) }
{
    ioctl_table::number(device_requests::request(
        &d.sheet,
        &mut d.setup,
        &mut d.values,
        &mut d.services,
        &mut d.video,
        &mut d.captions,
        word,
        argument,
    ))
}

// A frame of a type arrives, with the memory of its stream lent; the time comes by its bits.
#[unsafe(no_mangle)]
pub extern "C" fn tg_arrival(
    d: &mut Device,
    kind: u32,
    memory: &mut [u8],
    frame: &[u8],
    seconds: u32,
    microseconds: u32,
) -> Told
    ensures { (result ≡ told_of (taken_of (whole_of d.old).state kind (length memory.old) frame.now (time_of seconds microseconds)).arrival)
        × ((whole_of d.new).state ≡ (taken_of (whole_of d.old).state kind (length memory.old) frame.now (time_of seconds microseconds)).state)
        × (d.new.sheet ≡ d.old.sheet)
        × (memory.new ≡ taken_memory (whole_of d.old).state kind memory.old frame.now (time_of seconds microseconds)) }
{
    device_numbers::arrive(
        &d.setup,
        &d.services,
        &mut d.video,
        &mut d.captions,
        kind,
        memory,
        frame,
        seconds,
        microseconds,
    )
}

// A client has mapped the buffer of this offset and length once more. It is counted here: the memory itself is the caller's to share.
#[unsafe(no_mangle)]
pub extern "C" fn tg_map(d: &mut Device, kind: u32, offset: u32, length: u32) -> u32
    ensures { (result ≡ (mapped_of Map (whole_of d.old).state kind offset length).number)
        × ((whole_of d.new).state ≡ (mapped_of Map (whole_of d.old).state kind offset length).state)
        × (d.new.sheet ≡ d.old.sheet) }
{
    ioctl_table::number(device_maps::change(
        &d.setup,
        &d.services,
        &mut d.video,
        &mut d.captions,
        Change::Map,
        kind,
        offset,
        length,
    ))
}

// A client has given up one map of the buffer.
#[unsafe(no_mangle)]
pub extern "C" fn tg_unmap(d: &mut Device, kind: u32, offset: u32, length: u32) -> u32
    ensures { (result ≡ (mapped_of Unmap (whole_of d.old).state kind offset length).number)
        × ((whole_of d.new).state ≡ (mapped_of Unmap (whole_of d.old).state kind offset length).state)
        × (d.new.sheet ≡ d.old.sheet) }
{
    ioctl_table::number(device_maps::change(
        &d.setup,
        &d.services,
        &mut d.video,
        &mut d.captions,
        Change::Unmap,
        kind,
        offset,
        length,
    ))
}

// The verdict on the film of a type: 0 RUNNING, 1 BLANK, 2 GAPS, 3 COMPLETE.
#[unsafe(no_mangle)]
pub extern "C" fn tg_verdict(d: &Device, kind: u32) -> u32
    ensures { result ≡ verdict_told (whole_of d.now).state kind }
{
    device_numbers::verdict(&d.setup, &d.video, &d.captions, kind)
}

// Where a plane of a frame of so many bytes lies.
#[unsafe(no_mangle)]
pub extern "C" fn tg_plane(d: &Device, bytes: usize, plane: u32) -> Place
    ensures { result ≡ device_place d.now.sheet (whole_of d.now).state bytes plane }
{
    device_planes::plane_place(&d.sheet, &d.setup, bytes, plane)
}

// Records of 64 bytes packed into a block.
#[unsafe(no_mangle)]
pub extern "C" fn tg_vbi_pack(lines: &[u8], block: &mut [u8]) -> u32
    ensures { (result ≡ pack_number lines.now (length block.old)) × (block.new ≡ packed lines.now block.old) }
{
    ioctl_table::number(ivtv::pack(lines, block))
}

// A block read into records of 64 bytes.
#[unsafe(no_mangle)]
pub extern "C" fn tg_vbi_unpack(block: &[u8], lines: &mut [u8]) -> u32
    ensures { (result ≡ unpack_number block.now (length lines.old)) × (lines.new ≡ unpacked block.now lines.old) }
{
    ioctl_table::number(ivtv::unpack(block, lines))
}

// Bytes of a block of so many lines.
#[unsafe(no_mangle)]
pub extern "C" fn tg_vbi_block_length(lines: usize) -> usize
    ensures { result ≡ block_length lines }
{
    ivtv_rules::block_length(lines)
}
