// What a client asks of the bench's device, event by event, and how that is said; the crate `show_answers` says the answers. An event has a
// letter and up to two numbers:
//   B opens a device with the bench sheet, D with a damaged sheet, U with one cut short; the number is the length of the picture memory
//   O opens one with the bench sheet, a picture memory and a caption memory; I one with the sheet that has odd tops
//   c QUERYCAP, e ENUM_FMT, g G_FMT; f S_FMT of YUYV, P of YU12, N of NV12; t TRY_FMT of YUYV, T of YU12
//   F S_FMT of captions with a set of services, E TRY_FMT, V G_SLICED_VBI_CAP
//   r REQBUFS, b QUERYBUF, q QBUF, d DQBUF, s STREAMON, o STREAMOFF; these, g and v are about captions where 6 is the first of two numbers
//   m a buffer is mapped, n unmapped, of captions where 6 is the first of two numbers; M and W the same by an offset and a length, of pictures
//   G G_CTRL, S S_CTRL, Q QUERYCTRL, C CROPCAP, k G_CROP, K S_CROP with left and width, J with top and height
//   u a word that is not known, l an argument one byte short, y a wrong type
//   w a whole frame arrives, h one that is a byte short, z one of type 2, with seconds and microseconds; v the verdict
//   a a frame of captions arrives, whose line 21 has the load reading, with the reading and seconds; A one that has the line twice; i one whose
//   line 21 has Teletext B
//   p a plane of a frame, with the bytes of the frame and the number of the plane
//   # what a client has counted that takes every dequeue for a frame
// No contract here says more than that each function is safe and ends.
#![tactic(auto)]

mod asking;
mod saying;

pub use asking::{lent, word};
pub use saying::asked;
