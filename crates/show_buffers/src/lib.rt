// A stream of buffers, and what can be asked of it, by letters. The number of a call stands in its argument, and so does the answer:
//   r REQBUFS, b QUERYBUF, q QBUF, d DQBUF, s STREAMON, t STREAMOFF; the letter of an answer is the capital one of its call, N where the
//   argument has the number of a refusal, and X where a frame is handed over that does not stand in memory as it arrived
//   j a buffer is mapped, y unmapped, by its index; i buffer 0 is mapped as often as the number says; of a refusal the last number is told
//   v the verdict, which answers with a digit from 5 on; h the record of the run, which answers H
//   a line's end, and k with the memory's length, make the stream anew; a and e put a run to counts that no list could reach: 4,294,967,294
//   arrivals, and 9,223,372,036,854,775,805, each accepted and handed over
// Events and answers are the letters of lists and of tables: an enum of them would be a second list of letters before the matches here.
// No contract here says more than that each function is safe and ends.
#![tactic(auto)]

use show_arrivals::Event;
use stream_maps::Change;
use stream_words::Words;

// Buffer k is mapped or unmapped, by the offset and the length that QUERYBUF tells of it.
fn mapped(s: &mut Words, c: Change, k: u32, size: u32) -> u32 {
    let offset = stream_words::low(stream_slots::slot_offset(k, size));
    let length = stream_words::low(stream_slots::slot_size(size));
    ioctl_table::number(stream_mmap::change(s, c, size, offset, length))
}

// Buffer 0 is mapped so often; the number of the last of these calls.
fn often(s: &mut Words, times: u32, size: u32) -> u32 {
    let mut number = 0;
    for _ in 0..times {
        number = mapped(s, Change::Map, 0, size);
    }
    number
}

fn asked(s: &mut Words, c: u8, size: u32, a: &mut [u8]) -> u32 {
    match c {
        b'r' => ioctl_table::number(buffer_calls::reqbufs(s, 1, size, a)),
        b'b' => ioctl_table::number(buffer_calls::querybuf(s, 1, size, a)),
        b'q' => ioctl_table::number(queue_calls::qbuf(s, 1, size, a)),
        b'd' => ioctl_table::number(dequeue_calls::dqbuf(s, 1, size, a)),
        b's' => ioctl_table::number(run_calls::streamon(s)),
        b'j' => mapped(s, Change::Map, wire_read::word_at(a, 0), size),
        b'y' => mapped(s, Change::Unmap, wire_read::word_at(a, 0), size),
        b'i' => often(s, wire_read::word_at(a, 0), size),
        _ => {
            run_calls::streamoff(s);
            0
        }
    }
}

// Whether the frame of the time that is told stands in memory at the offset that is told.
fn held(memory: &[u8], a: &[u8]) -> bool {
    show_pictures::stands_at(
        memory,
        wire_read::word_at(a, 52) as usize,
        wire_read::word_at(a, 8) as usize,
        wire_read::word_at(a, 24),
    )
}

// A call of a client.
fn call(s: &mut Words, memory: &[u8], c: u8, size: u32, a: &mut [u8]) -> u8 {
    let number = asked(s, c, size, a);
    if number != 0 {
        wire_store::put_word(a, 0, number);
        return b'N';
    }
    if c == b'd' && !held(memory, a) {
        return b'X';
    }
    c.to_ascii_uppercase()
}

// What became of the arrivals of the last run: five words, accepted, handed over, damaged, dropped, discarded. Of each count the lower 32 bits.
fn record(s: &Words, a: &mut [u8]) {
    for k in 0..5 {
        wire_store::put_word(a, k * 4, stream_words::low(s[stream_words::ACCEPTED + k]));
    }
}

// As many were accepted and handed over, and the next number is that of the count.
fn aged(s: &mut Words, n: u64) {
    s[stream_words::ACCEPTED] = n;
    s[stream_words::HANDED] = n;
    s[stream_words::NEXT_NUMBER] = n % 4294967296;
}

// Another event, with the length that the memory has, and its answer.
fn other(s: &mut Words, length: u32, c: u8, a: &mut [u8]) -> Option<u8> {
    let answer = match c {
        b'\n' | b'k' => {
            *s = stream_run::fresh(length as u64);
            return None;
        }
        b'a' => {
            aged(s, 4294967294);
            return None;
        }
        b'e' => {
            aged(s, 9223372036854775805);
            return None;
        }
        b'v' => (u32::from(stream_verdict::film_verdict(s)) % 4 + 53) as u8,
        b'h' => {
            record(s, a);
            b'H'
        }
        _ => return None,
    };
    Some(answer)
}

// The letter of the answer of an event, where it has one.
pub fn event(s: &mut Words, memory: &[u8], e: Event, a: &mut [u8]) -> Option<u8> {
    let c = e.letter;
    match c {
        b'r' | b'b' | b'q' | b'd' | b's' | b't' | b'j' | b'y' | b'i' => {
            Some(call(s, memory, c, e.size, a))
        }
        _ => other(s, e.length, c, a),
    }
}
