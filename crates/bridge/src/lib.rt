// The exports for hosts in C and Rust: numbers and slices, and the station as 134 bytes that the host lends. None has a condition; bytes that are no state are
// refused by 13, and a refusal leaves every byte and word as it was. include/hedgemallow.h declares them.
#![tactic(auto)]

mod calls; // open, write, apply, reset, set_enabled, ask, commit, cycle_lut, set_depth, depth, enabled, preset, areas
mod state; // the station in bytes
