// What a listing of an image shows: the instructions with their names and operands, the procedures, marks as text, and searches over words
// and marks.
#![tactic(auto)]

pub mod bytes;
pub mod causes;
pub mod cell;
pub mod instruction;
pub mod names;
pub mod page;
pub mod procedure;
pub mod search;
pub mod streams;
