// How an event is said, from the words that are written for it: a line for the letter of each event, and one for the letter of each answer.
use std::io;
use std::io::Write;

pub(crate) fn told(out: &mut impl Write, letter: u8, a: &[u8]) -> io::Result<()> {
    show_lines::told(
        out,
        b"r REQBUFS %d\x00\n\
        b QUERYBUF %d\x00\n\
        q QBUF %d\x00\n\
        d DQBUF\n\
        s STREAMON\n\
        t STREAMOFF\n\
        j map %d\x00\n\
        y unmap %d\x00\n\
        i map 0, %d\x00 times\n\
        v verdict: \n\
        h record: \n\
        w arrival\n\
        u arrival one byte short\n\
        o arrival one byte long\n\
        p arrival one byte short, called whole\n\
        g arrival one byte long, called whole\n\
        m arrival at %i\x00 microseconds\n\
        l with a memory of 100, arrival\n\
        z size %d\x00;\n\
        c clock %d\x00;\n\
        a accepted and handed over 4294967294;\n\
        e accepted and handed over 9223372036854775805;\n\
        0: refused %d\x00;\n\
        1: ignored;\n\
        2: damaged;\n\
        3: dropped;\n\
        4: stored %d\x04 number %d\x00;\n\
        5RUNNING;\n\
        6BLANK;\n\
        7GAPS;\n\
        8COMPLETE;\n\
        N: %d\x00;\n\
        R: granted %d\x00;\n\
        Q: 0;\n\
        S: 0;\n\
        T: 0;\n\
        J: 0;\n\
        Y: 0;\n\
        I: 0;\n\
        D: returned %d\x00 number %d\x2c used %d\x08 time %t\x14 intact;\n\
        X: returned %d\x00 number %d\x2c used %d\x08 time %t\x14 SPOILT;\n\
        B: flags %d\x0c used %d\x08 number %d\x2c time %t\x14 offset %d\x34 length %d\x38;\n\
        Haccepted %d\x00 handed %d\x04 damaged %d\x08 dropped %d\x0c discarded %d\x10;\n",
        letter,
        a,
    )
}
