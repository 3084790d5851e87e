// How an event is said, from the words of its argument.
use crate::asking;
use show_lists::Event;
use std::io;
use std::io::Write;

fn said(out: &mut impl Write, c: u8, a: &[u8]) -> io::Result<()> {
    show_lines::told(
        out,
        b"Bopen, bench sheet, memory of %d\x00 bytes\n\
        Oopen, bench sheet, memories of %d\x00 and %d\x0c bytes\n\
        Iopen, sheet with odd tops, memory of %d\x00 bytes\n\
        Dopen, damaged sheet, memory of %d\x00 bytes\n\
        Uopen, cut sheet, memory of %d\x00 bytes\n\
        cQUERYCAP\n\
        eENUM_FMT %d\x00\n\
        gG_FMT\n\
        fS_FMT %c\x0c %d\x04x%d\x08\n\
        PS_FMT %c\x0c %d\x04x%d\x08\n\
        NS_FMT %c\x0c %d\x04x%d\x08\n\
        tTRY_FMT %c\x0c %d\x04x%d\x08\n\
        TTRY_FMT %c\x0c %d\x04x%d\x08\n\
        Fcaptions, S_FMT %h\x04\n\
        Ecaptions, TRY_FMT %h\x04\n\
        VG_SLICED_VBI_CAP\n\
        rREQBUFS %d\x00\n\
        bQUERYBUF %d\x00\n\
        qQBUF %d\x00\n\
        dDQBUF\n\
        sSTREAMON\n\
        oSTREAMOFF\n\
        mmap %d\x00\n\
        nunmap %d\x00\n\
        Mmap offset %d\x34 length %d\x38\n\
        Wunmap offset %d\x34 length %d\x38\n\
        GG_CTRL %x\x00\n\
        SS_CTRL %x\x00 %i\x04\n\
        QQUERYCTRL %x\x00\n\
        CCROPCAP\n\
        kG_CROP\n\
        KS_CROP left %i\x04 top %i\x08 width %i\x0c height %i\x10\n\
        JS_CROP left %i\x04 top %i\x08 width %i\x0c height %i\x10\n\
        uword 0xc0cc5606\n\
        lG_FMT with 203 bytes\n\
        yG_FMT of type %d\x00\n\
        warrival of %d\x00 bytes at %t\x04\n\
        harrival of %d\x00 bytes at %t\x04\n\
        zarrival of type %d\x0c at %t\x04\n\
        acaptions, arrival of %d\x00 bytes at %t\x04, load %d\x10\n\
        Acaptions, arrival of %d\x00 bytes at %t\x04, load %d\x10 twice\n\
        icaptions, arrival of %d\x00 bytes at %t\x04, Teletext B\n\
        vverdict: \n\
        pplane %d\x00 of a frame of %d\x04 bytes\n\
        #the client counts %d\x00 frames\n",
        c,
        a,
    )
}

// Whether a call that can be about either stream is about captions.
fn of_captions(e: Event) -> bool {
    e.first == 6
        && matches!(
            e.letter,
            b'g' | b'r' | b'b' | b'q' | b'd' | b's' | b'o' | b'v' | b'm' | b'n'
        )
}

// What an event asks: it is written as the argument, and said.
pub fn asked(out: &mut impl Write, e: Event, a: &mut [u8]) -> io::Result<()> {
    let words = asking::argument(e);
    wire_store::put_words(a, 0, &words);
    wire_store::put_word(a, 100, asking::last(e.letter));
    if of_captions(e) {
        write!(out, "captions, ")?;
    }
    said(out, e.letter, a)
}
