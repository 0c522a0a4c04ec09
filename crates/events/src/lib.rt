// The input and the output of program `station`: what the bytes of an event mean, what the event does to a station and what it prints. Reading and writing are
// the program's; what is decided is decided here.
#![tactic(auto)]

pub mod event; // the input: the card, events
pub mod play; // what an event does
mod text; // the lines that are printed
