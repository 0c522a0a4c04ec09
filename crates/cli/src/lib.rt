// What the programs `card`, `filter`, `totals` and `sheet` share: arguments and files, a card that an argument gives, the buffers of a frame's file, lines
// of standard output, and refusals in words.
#![tactic(auto)]

pub mod input; // arguments, files, cards
pub mod memory; // the buffers that a frame's file is read into
pub mod names; // passes and settings by name
pub mod output; // lines of standard output, and that one was not written
pub mod reason; // why a call of the system failed
pub mod says; // lines behind an argument, words on standard error
pub mod stream; // the standard streams by number
pub mod words; // refusals in words
