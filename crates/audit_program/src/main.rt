// `audit_program ROSTER LIST JOURNAL REQUESTS RESPONSES`: says whether captured responses are those that the rules give to captured
// requests, and prints the bill of the requests (document 02, "The auditor").
#![tactic(auto)]

use file_input::open_argument;
use std::io;
use std::io::Write;
use text::{text_buffer, write_text};

mod restore;
mod streams;
mod text;

fn main(rt: HostRuntime) -> io::Result<()> {
    let roster = open_argument(&rt, 1);
    let list = open_argument(&rt, 2);
    let journal = open_argument(&rt, 3);
    let requests = open_argument(&rt, 4);
    let responses = open_argument(&rt, 5);
    let mut out = text_buffer();
    let size = write_text(&mut out, roster, list, journal, requests, responses);
    write_out(&rt, &out, size)
}

// Writes the first bytes of the text.
fn write_out(rt: &impl Print, out: &[u8], size: usize) -> io::Result<()> {
    match out.get(..size) {
        Some(text) => rt.write_all(text),
        None => Ok(()),
    }
}
