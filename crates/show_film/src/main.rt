// The whole capture device on the bench sheet: each call, what it is answered, and what can be said of the film. What is printed of
// an answer is read from the bytes of its argument. The crate `show_calls` has the letter of each event and how it is said, `show_answers` how
// its answer is, `show_lists` how lists of events are read.
#![tactic(auto)]

use std::io;
use std::io::{BufWriter, Write};

fn main(rt: HostRuntime) -> io::Result<()> {
    let mut out = BufWriter::new(rt.alloc(), io::writer(&rt))?;
    let mut pictures = [0u8; 1048576];
    let mut captions = [0u8; 8192];
    show_tables::table(
        &mut out,
        &mut pictures,
        &mut captions,
        b"1. Opening\n\
            1048576B v 1048576D c o 1x0w v 1048576U v 1073741824B 1x0w v 1073741825B c o 1x0w v\n\
        2. Negotiation\n\
            1048576B c 0e 1e 2e g 300x225t g 300x225f g 301x121P 296x479f \
            0x0T 4294967295x4294967295t 300x225N 2r 640x480P 640x480T g 0r 640x480P u l y g\n\
        3a. Every frame is stored and handed over\n\
            1048576B 300x225f 10r 0q 1q s v 1x0w d 0q 2x40000w 3x80000w d d d o v\n\
        3b. One frame is damaged, the others are handed over\n\
            1048576B 300x225f 10r 0q 1q s 1x0h 2x40000w 3x80000w d d d o v\n\
        3c. A frame is stored, and the run stopped before anyone took it\n\
            1048576B 300x225f 10r 0q 1q s 1x0w 0b o v 0b d 2x40000w v\n\
        3d. No frame arrives whole, and a client counts failed dequeues\n\
            1048576B 300x225f 10r 0q 1q s 1x0h d 2x40000h d 3x80000h d 4x120000h d 5x160000h d # o d v\n\
        4a. One frame stored and handed over\n\
            1048576B 300x225f 10r 0q 1q s 1x0w d o v\n\
        4b. One frame stored, then stopped\n\
            1048576B 300x225f 10r 0q 1q s 1x0w o v\n\
        4c. A run of no arrivals, stopped\n\
            1048576B 300x225f 10r 0q 1q s o v\n\
        4d. A frame one byte short, then a whole one\n\
            1048576B 300x225f 10r 0q 1q s 1x0h 2x40000w d o v\n\
        4e. Contrast\n\
            1048576B 9963777Q 2147483648Q 2157447425Q 9963777G \
            9963777x11S 9963777x-8S 9963777G 9963777x0S 9963777G 9963778G\n\
        4f. Crop\n\
            1048576B C 100x608K k -5x608K k -2147483648x608K k 100x0K k\n\
        4g. A crop keeps the fields apart, at opening too\n\
            1048576B 0x300J k 1x300J k 31x300J k 1048576I C k -7x300J k -6x300J k -5x300J k 24x300J k -32768x300J k\n\
        4h. Buffers and planes\n\
            1048576B 304x224f 10r 6b 7b 0r 143360x0p 143360x1p 143360x2p 143360x3p \
            304x224P 10r 8b 9b 107520x0p 107520x1p 107520x2p 107520x3p \
            143360x0p 143360x1p 143360x2p 143360x3p\n\
        5a. Services, and captions before there are any\n\
            1048576x1073741825O c 1048576x8192O V 4096E 6xg 512F 6x10r 6xs 250x1a 21505F 6x10r 4096F 6x0r 4096F 1x0z\n\
        5b. Each picture has its caption frame, with a load reading on line 21\n\
            1048576x8192O 300x225f 10r 0q 1q s 4096F 6x10r 6x0q 6x1q 6xs 1x0w 250x1a d 6xd 0q 6x0q \
            2x0w 251x2a 3x0w 249x3a d 6xd d 6xd d 6xd o 6xo v 6xv\n\
        5c. The captions alone have a gap\n\
            1048576x8192O 300x225f 10r 0q 1q s 4096F 6x10r 6x0q 6x1q 6xs 1x0w 250x1a \
            2x0w 251x2A d 6xd 0q 3x0w 249x3i d d 6xd o 6xo v 6xv\n\
        6a. A mapped buffer is not given away\n\
            1048576B 300x225f 10r 1b 1m 1b 0b 0r 4r 1q 0q s 0r 1b 1x0w 1b 2x40000w d d o v 1b 0r \
            143361x143360M 1003520x143360M 143360x143359M 143360x0M 0x143360W 143360x143360W 1n 1b \
            2m 143360x143360M 2m 2n 1n 4r 2n 4r 0b 1b 2b 3b\n\
        6b. The maps of captions are their own\n\
            1048576x8192O 300x225f 10r 4096F 6x10r 6x1m 6x1b 1b 0r 10r 6x0r 0m 6x1n 6x0r 0r 0n 0r",
    )?;
    out.flush()
}
