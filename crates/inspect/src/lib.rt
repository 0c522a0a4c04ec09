// What a desk program decides about cards: the settings of a pass one by one, decimal digits both ways, the first difference of two cards,
// hexadecimal text, the field of a card that a bit lies in, a size in words.
#![tactic(auto)]

pub mod settings; // the settings of a pass
pub mod decimal; // a binary32 number exactly, in decimal digits
pub mod nearest; // the binary32 nearest to a decimal number
pub mod difference; // the first difference of two chains
pub mod hexadecimal; // a card given as text
pub mod layout; // the field of a card that a bit lies in
pub mod extent; // a size in words
