// The calls of a pad's driver, for C, as include/strokes.h declares them. Each hands on to the call that it is named after.
#![tactic(auto)]

mod sheets;
mod stepping;
mod strokes;
mod transforms;

pub use sheets::{
    strokes_sheet_edit_path, strokes_sheet_edit_pressure, strokes_sheet_lay_path,
    strokes_sheet_lay_pressure, strokes_sheet_mirror_path, strokes_sheet_mirror_pressure,
    strokes_sheet_open_path, strokes_sheet_open_pressure, strokes_sheet_shift_path,
    strokes_sheet_shift_pressure, strokes_sheet_tone_path, strokes_sheet_tone_pressure,
};
pub use stepping::{
    strokes_deal_fixed, strokes_deal_path, strokes_deal_pressure, strokes_finish,
    strokes_give_up_fixed, strokes_give_up_path, strokes_give_up_pressure, strokes_stage_fixed,
    strokes_stage_path, strokes_stage_pressure,
};
pub use strokes::{
    strokes_match, strokes_read, strokes_sample_fixed, strokes_sample_path,
    strokes_sample_pressure, strokes_write,
};
pub use transforms::{
    strokes_convolve_path, strokes_convolve_pressure, strokes_inverse_path,
    strokes_inverse_pressure, strokes_standard_plan, strokes_transform_fixed,
    strokes_transform_path, strokes_transform_pressure,
};
