// `bill ROSTER STREAM LIST`: prints the bill of a roster file, a captured stream and the list of keys that we ship (document 01,
// "The bill"; document 02, "Keys we ship").
#![tactic(auto)]

use file_input::open_argument;
use starting::memory::bill_buffer;
use std::io;
use std::io::Write;
use text::write_text;

mod feed;
mod text;

fn main(rt: HostRuntime) -> io::Result<()> {
    let roster = open_argument(&rt, 1);
    let stream = open_argument(&rt, 2);
    let list = open_argument(&rt, 3);
    let mut out = bill_buffer();
    let size = write_text(&mut out, roster, stream, list);
    rt.stdout().write_all(&out[..size])
}
