// The card: read into a station, and written back from one that is good. Nothing here is assumed, and no public function
// has a `requires`, but for those of `Cursor`, by which fields are read elsewhere too.
#![tactic(auto)]

pub mod station; // the passes, the records, the station
pub mod fields; // the bit reader and the settings
pub mod reader; // opening a card
pub mod check; // refusal 13
pub mod writer; // writing a card
