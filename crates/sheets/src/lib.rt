// The run sheet: a match as events, packed as a card is, and played on a station. A sheet is looked at whole before its first event is played.
#![tactic(auto)]

pub mod event; // an event at its place, and whether a sheet is whole
pub mod pixels; // the words of a frame, from any bit on
pub mod play; // what a sheet does to a station
pub mod write; // events and a sheet's end, written bit by bit
