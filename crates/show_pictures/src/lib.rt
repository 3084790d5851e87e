// The bytes of pictures, and of captions. Those of a picture go by its number, which is part of its time too: so what stands in memory can be
// held against the time that is told of it. No contract here says more than that each function is safe and ends.
#![tactic(auto)]

// Another picture, or the same one a line further on, has other bytes.
fn byte(picture: usize, i: usize) -> u8 {
    ((picture % 251 * 31 + i % 251 + i / 251 % 241 * 7) % 251) as u8
}

// The space is filled with the bytes of the picture.
pub fn fill(space: &mut [u8], picture: u32) {
    for (i, b) in space.iter_mut().enumerate() {
        *b = byte(picture as usize, i);
    }
}

// Whether memory has so many bytes of that picture, from its first on, at a place.
pub fn stands_at(memory: &[u8], at: usize, used: usize, picture: u32) -> bool {
    let part = wire_read::part(memory, at, used);
    part.len() == used
        && part
            .iter()
            .enumerate()
            .all(|(i, b)| *b == byte(picture as usize, i))
}

// Every word of a space tells its own place, up to the greatest frame of the bench.
pub fn mark(space: &mut [u8]) {
    for k in 0..35840u32 {
        wire_store::put_word(space, (k * 4) as usize, k * 4);
    }
}

// The record of a caption line: line 21 of the first field. It has its service, field, line, a reserved word, and the load reading, which is
// the two bytes that the line carries, the lower one first. The load and the service are two words.
fn record(space: &mut [u8], at: usize, a: &[u8]) {
    let load = wire_read::word_at(a, 0) % 65536;
    let service = wire_read::word_at(a, 4);
    wire_store::put_words(space, at, &[service, 0, 21, 0, load]);
}

// The space begins with that record twice.
pub fn captions(space: &mut [u8], a: &[u8]) {
    record(space, 0, a);
    record(space, 64, a);
}
