// Rows 8 to 13 of sixteen opcodes: indexed words and bytes, arithmetic, comparisons and bits. An opcode of a row is a listed one.
#![tactic(auto)]

pub mod channels;
pub mod compared;
pub mod indexed;
pub mod signed;
pub mod unsigned;
