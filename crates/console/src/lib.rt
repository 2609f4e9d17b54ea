// What the operator's programs share: numbers and options as text, the words of refusals and stops, where a fault lies, caught traps, and
// the printing of a reading. Each question about bytes is answered by a function on slices whose contract gives the whole answer; the
// programs only read, ask and print.
#![tactic(auto)]

pub mod arguments;
pub mod caught;
pub mod code;
pub mod fault;
pub mod files;
pub mod given;
pub mod number;
pub mod options;
pub mod plain;
pub mod print;
pub mod words;
