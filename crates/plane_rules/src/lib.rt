// The planes of a picture: what each holds, and the part of a lent frame that it is.
#![tactic(auto)]

ghost use Rattle.std.specs.Prelude.{◌≡◌, [], ◌∷◌, get_or, length, MatchResult, IfOk, IfErr};
ghost use Rattle.plane_rules.specs.Planes.{component_of, plane_count, component_length, plane_start, plane_of, place_of, no_place, part_at};
ghost use Rattle.plane_rules.specs.declared.Component.TheVariants.{Nothing};

use format_rules::{Format, NV12, YU12, YV12};
use ioctl_table::Refusal;

// What a plane holds.
#[derive(Clone, Copy)]
pub enum Component {
    Nothing,
    Packed,
    Luma,
    Cb,
    Cr,
    CbCr,
}

// Where a plane lies in its frame: length bytes from start on, and 0 in number; or no bytes, and the number of a refusal. It is what
// tg_plane hands to C, which has no Result.
#[repr(C)]
#[derive(Clone, Copy)]
pub struct Place {
    pub number: u32,
    pub start: usize,
    pub length: usize,
}

// The one of three at a place.
fn among(k: u32, a: Component, b: Component, c: Component) -> Component
    ensures { result ≡ get_or (a ∷ b ∷ c ∷ []) k Nothing }
{
    match k {
        0 => a,
        1 => b,
        2 => c,
        _ => Component::Nothing,
    }
}

// What plane k of a format holds; Nothing where there is no such plane.
pub fn plane_component(code: u32, k: u32) -> Component
    ensures { result ≡ component_of code k }
{
    match code {
        YU12 => among(k, Component::Luma, Component::Cb, Component::Cr),
        YV12 => among(k, Component::Luma, Component::Cr, Component::Cb),
        NV12 => among(k, Component::Luma, Component::CbCr, Component::Nothing),
        _ => among(k, Component::Packed, Component::Nothing, Component::Nothing),
    }
}

// How many planes a format has.
fn plane_count(code: u32) -> u32
    ensures { result ≡ plane_count code }
{
    match code {
        YU12 | YV12 => 3,
        NV12 => 2,
        _ => 1,
    }
}

// How many bytes hold a component.
fn component_length(f: Format, alignment: u32, c: Component) -> u32
    ensures { result ≡ component_length f alignment c }
{
    let line = format_rules::bytes_per_line(f, alignment);
    let height = format_rules::image_height(f);
    match c {
        Component::Nothing => 0,
        Component::Packed | Component::Luma => line * height,
        Component::Cb | Component::Cr => line / 2 * (height / 2),
        Component::CbCr => line * (height / 2),
    }
}

// Where plane k starts: behind those before it.
fn plane_start(f: Format, alignment: u32, k: u32) -> u32
    ensures { result ≡ plane_start f alignment k }
{
    if k == 0 {
        return 0;
    }
    let first = component_length(f, alignment, plane_component(f.code, 0));
    if k == 1 {
        return first;
    }
    first + component_length(f, alignment, plane_component(f.code, 1))
}

// Where plane k of a frame of so many bytes lies, its start and its length. A frame whose length is not the format's size has no planes.
fn placed(f: Format, alignment: u32, bytes: usize, k: u32) -> Result<(usize, usize), Refusal>
    ensures { MatchResult result (λ p. plane_of f alignment bytes k ≡ place_of p.0 p.1) (λ why. plane_of f alignment bytes k ≡ no_place why) }
{
    let size = format_rules::image_size(f, alignment) as usize;
    if (bytes != size) | (plane_count(f.code) <= k) {
        return Err(Refusal::NoSuchPlane);
    }
    let start = plane_start(f, alignment, k) as usize;
    let length = component_length(f, alignment, plane_component(f.code, k)) as usize;
    Ok((start, length))
}

// The same for C, in numbers; of a refusal the number and no bytes.
pub fn plane_place(f: Format, alignment: u32, bytes: usize, k: u32) -> Place
    ensures { result ≡ plane_of f alignment bytes k }
{
    match placed(f, alignment, bytes, k) {
        Ok((start, length)) => Place {
            number: 0,
            start,
            length,
        },
        Err(why) => Place {
            number: u32::from(why),
            start: 0,
            length: 0,
        },
    }
}

// Plane k of a frame: that part of the frame itself.
pub fn plane<'a>(f: Format, alignment: u32, frame: &'a [u8], k: u32) -> Result<&'a [u8], Refusal>
    ensures part { IfOk result (λ p. (p.now ≡ part_at (plane_of f alignment (length frame.now) k) frame.now) × ((plane_of f alignment (length frame.now) k).number ≡ 0)) }
    ensures refusal { IfErr result (λ why. plane_of f alignment (length frame.now) k ≡ no_place why) }
{
    let (start, length) = placed(f, alignment, frame.len(), k)?;
    Ok(wire_read::part(frame, start, length))
}
