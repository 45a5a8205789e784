// Numbers from bytes and to bytes, and the page that bytes are written onto.
// specs/ says which words are numbers, and how a number is written.
#![tactic(auto)]

pub mod page;
pub mod read;
pub mod write;
