// What a program does before its first byte and with each chunk of a stream: roster and list made into a start, or the line that
// says why there is none (document 02, "Keys we ship"). Opening and reading files is the program's: no library of the kit is below.
#![tactic(auto)]

pub mod feed;
pub mod files;
pub mod memory;
pub mod start;
pub mod text;
