// A sheet's formats, field by field, and what the fields of its controls are. Those are read in `sheet_controls`.
#![tactic(auto)]

mod formats;

pub use formats::{format_code, format_description};

// The four numbers of a control: its values go from minimum to maximum by step, and initial is the default.
#[repr(C)]
#[derive(Clone, Copy)]
pub struct Limits {
    pub minimum: i32,
    pub maximum: i32,
    pub step: i32,
    pub initial: i32,
}

// What v4l2_queryctrl says of a control, its name left out; kind is the type.
#[repr(C)]
#[derive(Clone, Copy)]
pub struct Control {
    pub id: u32,
    pub kind: u32,
    pub flags: u32,
    pub limits: Limits,
}
