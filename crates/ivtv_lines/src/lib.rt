// One line of the embedded packing: a record of 64 bytes as 43 bytes of a block, and back.
#![tactic(auto)]

ghost use Rattle.std.specs.Prelude.{◌≡◌, length, get_or, take, drop, ◌+◌, ◌-◌, ◌<◌, ◌≤◌, eqb, MatchOption};
ghost use Rattle.std.proofs.lemmas.List.Edits.{sets};
ghost use Rattle.sheet_rules.specs.Folds.{all_below};
ghost use Rattle.ivtv_rules.specs.Services.{identifier_of, service_of, payload_of};
ghost use Rattle.ivtv_rules.specs.Lines.{bit_of, record_bit, line_of, record_of, good_line};

// The services are numbers here and no enum: put_line and put_record store what they are lent, known or not, and promise a 0 for what is none (`line_of` and
// `record_of`); an enum would bring two matches more, and a 0 for its None again.

// The identifier of a service; 0 where the number is none.
#[tactic(auto, unfolding(ivtv_rules::specs::Services::identifier_of))]
fn identifier(service: u32) -> u8
    ensures { result ≡ identifier_of service }
{
    match service {
        0x0001 => 1,
        0x1000 => 4,
        0x4000 => 5,
        0x0400 => 7,
        _ => 0,
    }
}

// The service of an identifier; 0 where none has it.
#[tactic(auto, unfolding(ivtv_rules::specs::Services::service_of))]
fn service(identifier: u8) -> u32
    ensures { result ≡ service_of identifier }
{
    match identifier {
        1 => 0x0001,
        4 => 0x1000,
        5 => 0x4000,
        7 => 0x0400,
        _ => 0,
    }
}

// How many bytes of payload the service of an identifier has.
#[tactic(auto, unfolding(ivtv_rules::specs::Services::payload_of))]
fn payload(identifier: u8) -> usize
    ensures { result ≡ payload_of identifier }
{
    match identifier {
        1 => 42,
        4 => 2,
        5 => 2,
        7 => 13,
        _ => 0,
    }
}

// The mask bit of a line, if it has one.
#[tactic(auto, unfolding(ivtv_rules::specs::Lines::bit_of))]
fn bit(field: u32, line: u32) -> Option<usize>
    ensures { MatchOption result (bit_of field line ≡ 36) (λ k. (k < 36) × (k ≡ bit_of field line)) }
{
    if (field < 2) & ((6 <= line) & (line <= 23)) {
        Some((18 * field + line - 6) as usize)
    } else {
        None
    }
}

// The mask bit of the line that a record names, if that has one and the service is known.
#[tactic(auto, unfolding(ivtv_rules::specs::Lines::record_bit))]
pub fn record_bit(sliced: &[u8]) -> Option<usize>
    ensures { MatchOption result (record_bit sliced.now ≡ 36) (λ k. (k < 36) × (k ≡ record_bit sliced.now)) }
{
    if identifier(wire_read::word_at(sliced, 0)) == 0 {
        return None;
    }
    bit(wire_read::word_at(sliced, 4), wire_read::word_at(sliced, 8))
}

// The payload of a record, of n bytes, stored behind the identifier of a line. Paths for the lengths that there are, for speed: of a length that the
// compiler knows it makes a few moves, and no call.
fn put_payload(line: &mut [u8], sliced: &[u8], n: usize)
    ensures { line.new ≡ sets line.old 1 (take n (drop 16 sliced.now)) }
{
    if n == 2 {
        wire_copy::put_part(line, 1, sliced, 16, 2);
        return;
    }
    if n == 42 {
        wire_copy::put_part(line, 1, sliced, 16, 42);
        return;
    }
    wire_copy::put_part(line, 1, sliced, 16, n);
}

// A record stored in a block, as a line. It is put together in an array, for speed: of that the compiler knows the length.
pub fn put_line(block: &mut [u8], at: usize, sliced: &[u8])
    ensures { block.new ≡ sets block.old at (line_of sliced.now) }
{
    let name = identifier(wire_read::word_at(sliced, 0));
    let mut line = [0u8; 43];
    line[0] = name;
    put_payload(&mut line, sliced, payload(name));
    wire_copy::put_part(block, at, &line, 0, 43);
}

// The line of a bit stored as a record, where all of both is there: no test is left between the stores.
fn put_whole(lines: &mut [u8], at: usize, k: u32, line: &[u8])
    requires { (at + 64 ≤ length lines.old) × (43 ≤ length line.now) }
    ensures { lines.new ≡ sets lines.old at (record_of k line.now) }
{
    wire_store::put_words(lines, at, &[service(line[0]), k / 18, 6 + k % 18, 0]);
    wire_copy::put_part(lines, at + 16, line, 1, 42);
    wire_copy::put_part(lines, at + 58, &[0, 0, 0, 0, 0, 0], 0, 6);
}

// The line of a bit stored as a record. Two paths, for speed: where something is missing, it is put together in an array.
pub fn put_record(lines: &mut [u8], at: usize, k: u32, line: &[u8])
    ensures { lines.new ≡ sets lines.old at (record_of k line.now) }
{
    if wire_four::within(lines.len(), at, 64) & (43 <= line.len()) {
        put_whole(lines, at, k, line);
        return;
    }
    let name = wire_read::byte_at(line, 0);
    let mut sliced = [0u8; 64];
    wire_store::put_words(&mut sliced, 0, &[service(name), k / 18, 6 + k % 18, 0]);
    wire_copy::put_part(&mut sliced, 16, line, 1, 42);
    wire_copy::put_part(lines, at, &sliced, 0, 64);
}

// Whether each byte of a line that lies beyond a payload is zero. The loop has no way out before its end, for speed: so the compiler looks at many at once.
fn zero_from(line: &[u8], used: usize) -> bool
    requires { (43 ≤ length line.now) × (used ≤ 42) }
    ensures { result ≡ all_below (42 - used) (λ j. eqb (get_or line.now (1 + used + j) 0) 0) }
{
    let mut clean = true;
    for byte in &line[1 + used..43] {
        clean &= *byte == 0;
    }
    clean
}

// The same. Paths for the lengths that leave something to look at, for speed: where the compiler knows how many bytes there are it looks at many at once.
fn zero_beyond(line: &[u8], used: usize) -> bool
    requires { (43 ≤ length line.now) × (used ≤ 42) }
    ensures { result ≡ all_below (42 - used) (λ j. eqb (get_or line.now (1 + used + j) 0) 0) }
{
    if used == 2 {
        return zero_from(line, 2);
    }
    if used == 13 {
        return zero_from(line, 13);
    }
    zero_from(line, used)
}

// Whether a line of which all bytes are there is one that a reader takes.
fn good_whole(line: &[u8]) -> bool
    requires { 43 ≤ length line.now }
    ensures { result ≡ good_line line.now }
{
    let name = line[0];
    (service(name) != 0) & zero_beyond(line, payload(name))
}

// Whether a line is one that a reader takes. What is missing of it counts as zero.
pub fn good_line(line: &[u8]) -> bool
    ensures { result ≡ good_line line.now }
{
    if 43 <= line.len() {
        return good_whole(line);
    }
    let mut copy = [0u8; 43];
    wire_copy::put_part(&mut copy, 0, line, 0, 43);
    good_whole(&copy)
}
