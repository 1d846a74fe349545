// Names and edges as words (references.rs, paths.rs). An edge is a row of ten words, laid out as in the area: parent x 65,536 + child;
// 65,536 x offset + 32 x blurred + 16 x strong + the number of labels; up to eight labels by their numbers. (meaning's Area says what each word
// stands for.)
#![tactic(auto)]

pub mod rows;
pub mod set;
pub mod words;

// A reference's name (references.rs 21 `RefID`; its field stands for 25 `new` and 30 `number`).
#[derive(Clone, Copy, PartialEq, Eq, PartialOrd, Ord)]
pub struct RefID(pub u16);
