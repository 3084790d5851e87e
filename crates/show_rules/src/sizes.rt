// Formats that are negotiated, and crops: as asked, and at opening.
use format_rules::Format;
use sheet_geometry::Rect;
use std::io;
use std::io::Write;

fn negotiate(
    out: &mut impl Write,
    s: &[u8; 324],
    alignment: u32,
    width: u32,
    height: u32,
) -> io::Result<()> {
    let asked = Format {
        width,
        height,
        code: format_rules::YUYV,
    };
    let f = negotiation_rules::negotiate(s, asked);
    let line = format_rules::bytes_per_line(f, alignment);
    let size = format_rules::image_size(f, alignment);
    writeln!(
        out,
        "YUYV {width}x{height}: {}x{}, line {line}, size {size}",
        f.width, f.height
    )
}

// Between two sizes, half way between two, and both ends of what can be asked for.
pub(crate) fn negotiated(out: &mut impl Write, s: &[u8; 324], alignment: u32) -> io::Result<()> {
    negotiate(out, s, alignment, 300, 225)?;
    negotiate(out, s, alignment, 296, 121)?;
    negotiate(out, s, alignment, 4294967295, 0)
}

fn told(out: &mut impl Write, what: &str, r: Rect) -> io::Result<()> {
    writeln!(
        out,
        "{what}: left {}, top {}, width {}, height {}",
        r.left, r.top, r.width, r.height
    )
}

fn rect(left: i32, top: i32, width: i32, height: i32) -> Rect {
    Rect {
        left,
        top,
        width,
        height,
    }
}

// A left below zero stays as asked, and a top goes up to an even distance from that of the bounds.
pub(crate) fn cropped(out: &mut impl Write, s: &[u8; 324]) -> io::Result<()> {
    let bounds = sheet_crop::crop_bounds(s);
    told(
        out,
        "crop left -5, width 608",
        crop_rules::clamp(bounds, rect(-5, 0, 608, 400)),
    )?;
    told(
        out,
        "crop top 31, height 300",
        crop_rules::clamp(bounds, rect(-8, 31, 640, 300)),
    )
}

// At opening, too: of a sheet with odd tops the crop is not the default.
pub(crate) fn opened(out: &mut impl Write) -> io::Result<()> {
    let s = bench_sheet::odd_sheet();
    told(out, "bounds top -7, default", sheet_crop::crop_default(&s))?;
    told(
        out,
        "bounds top -7, crop at opening",
        crop_rules::opening_crop(&s),
    )
}
