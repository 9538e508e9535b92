// Rows and blocks of rows as bytes in an array: what the walk of the completion asks and writes.
#![tactic(auto)]

pub mod bytes;
pub mod heads;
pub mod ideal;
pub mod rows;
