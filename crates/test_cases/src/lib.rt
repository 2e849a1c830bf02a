// What the programs that read lines of digits share: the reading of sizes, words and sheets, and the printing of bytes.
#![tactic(auto)]

pub mod input;
pub mod print;
