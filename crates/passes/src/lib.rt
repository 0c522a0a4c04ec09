// The ten passes over a lent frame, each in the module named as the original's file, and what they share: pixel, rows, blur, marks.
#![tactic(auto)]

pub mod auto_gradient;
pub mod bloom;
pub mod blur;
pub mod color_correction;
pub mod crt;
pub mod curvature;
pub mod lut;
pub mod marks;
pub mod ntsc;
pub mod persistence;
pub mod pixel;
pub mod rows;
pub mod scanlines;
pub mod vignette;
