// The place of a buffer in memory.
#![tactic(auto)]

ghost use Rattle.std.specs.Prelude.{◌≡◌};
ghost use Rattle.stream_slots.specs.Slot.{slot_size, slot_offset, slot_at};

// The bytes that a buffer takes: the frame size rounded up to whole pages.
pub fn slot_size(size: u32) -> u64
    ensures { result ≡ slot_size size }
{
    (size as u64).next_multiple_of(4096)
}

// Where buffer k starts.
pub fn slot_offset(k: u32, size: u32) -> u64
    ensures { result ≡ slot_offset k size }
{
    k as u64 * slot_size(size)
}

// Which of n buffers has this offset and this length. It is found by arithmetic: the length is the slot, so the offset is divided by it.
pub fn slot_at(n: u64, size: u32, offset: u32, length: u32) -> Option<u32>
    ensures { result ≡ slot_at n size offset length }
{
    let slot = slot_size(size);
    if slot == 0 {
        return None;
    }
    if length as u64 != slot {
        return None;
    }
    if offset % length != 0 {
        return None;
    }
    let k = offset / length;
    if n <= k as u64 {
        return None;
    }
    Some(k)
}
