// A device and its film: frames arrive, the verdict, planes. What is asked stands in the words of an argument, and so does the answer, beside
// the number that a caller is given. No contract here says more than that each function is safe and ends.
#![tactic(auto)]

use device_state::Device;

// The space that a frame is made in. It is lent with its length in its type: an array just made is too long for the checker to count.
type Space = [u8; 143360];

// A frame of captions has the record of line 21, and where it is long enough has it twice. A picture goes by the second that it arrives in.
fn make(space: &mut Space, a: &[u8]) {
    if wire_read::word_at(a, 12) == device_state::CAPTIONS {
        show_pictures::captions(space, wire_read::part(a, 16, 8));
    } else {
        show_pictures::fill(space, wire_read::word_at(a, 4));
    }
}

fn taken(d: &mut Device, memory: &mut [u8], space: &Space, a: &mut [u8]) -> u32 {
    let frame = wire_read::part(space, 0, wire_read::word_at(a, 0) as usize);
    let second = wire_read::word_at(a, 4);
    let told = device_numbers::arrive(
        &d.setup,
        &d.services,
        &mut d.video,
        &mut d.captions,
        wire_read::word_at(a, 12),
        memory,
        frame,
        second,
        wire_read::word_at(a, 8),
    );
    wire_store::put_words(a, 0, &[told.number, told.buffer]);
    told.kind
}

// A frame arrives, of as many bytes as the first word says, at the time that the next two tell, of the type that the fourth does, with the
// memory of its stream.
pub fn arrive(d: &mut Device, memory: &mut [u8], a: &mut [u8]) -> u32 {
    let mut space = [0u8; 143360];
    make(&mut space, a);
    taken(d, memory, &space, a)
}

// The verdict on the film of the type that the first word tells.
fn verdict(d: &Device, a: &[u8]) -> u32 {
    device_numbers::verdict(&d.setup, &d.video, &d.captions, wire_read::word_at(a, 0))
}

// Where a plane lies, by its number and the bytes of a frame.
fn plane(d: &Device, a: &mut [u8]) -> u32 {
    let p = device_planes::plane_place(
        &d.sheet,
        &d.setup,
        wire_read::word_at(a, 4) as usize,
        wire_read::word_at(a, 0),
    );
    let found = [
        (p.start % 4294967296) as u32,
        (p.length % 4294967296) as u32,
    ];
    wire_store::put_words(a, 4, &found);
    p.number
}

// What changes nothing: v the verdict, p a plane; any other letter asks for nothing.
pub fn read(d: &Device, c: u8, a: &mut [u8]) -> u32 {
    match c {
        b'v' => verdict(d, a),
        b'p' => plane(d, a),
        _ => 0,
    }
}
