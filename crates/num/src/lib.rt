// Number steps on `f32`, and sizes of pictures. Each is total: its contract is an equation with a definition
// of specs/, for every operand, of the steps a NaN, an infinity and either zero included, and none has a
// `requires`. Nothing here is assumed.
#![tactic(auto)]

pub mod refusal; // why a call is refused: the papers' table
pub mod root; // the square root
pub mod size; // sizes of pictures: whether a side is taken, what a history holds
pub mod steps; // clamp, min, max, limit, abs
pub mod whole; // cut, cut_clamped, cut_unit, round, nearest
