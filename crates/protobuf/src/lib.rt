// Protocol Buffers: bodies read where they lie (varints, fields, a body against a schema), and fields written ("Operations and
// their fields").
#![tactic(auto)]

pub mod body;
pub mod field;
pub mod group;
pub mod message;
pub mod reader;
pub mod varint;
pub mod write;
