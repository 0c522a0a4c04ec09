// Cards as text: what a desk writes makes a station, and a station's chain is printed so.
#![tactic(auto)]

pub mod words; // the words of a line
pub mod names; // passes, settings and presets by name
pub mod numbers; // words as numbers
pub mod mistake; // what can be wrong
pub mod settings; // what settings may be, and what a line says
pub mod lines; // a line
pub mod read; // a text
pub mod print; // the text of a chain
