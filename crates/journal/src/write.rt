// A record written over the front of a lent buffer: tag, length, value, and the CRC behind them (document 02, "Surviving a power cut").
ghost use Rattle.std.specs.Prelude.{◌≡◌, ◌++◌, ◌+◌, ◌≤◌, ◌<◌, length, take};
ghost use Rattle.wire.specs.Lists.{put};
ghost use Rattle.wire.specs.Numbers.{little_endian_of};
ghost use Rattle.wire.specs.code.Wrote.{Wrote};
ghost use Rattle.keys.specs.Key.{data_most};
ghost use Rattle.keys.specs.Names.{key_name_most};
ghost use Rattle.registry.specs.Registry.{line_count};
ghost use Rattle.registry.specs.code.Check.{key_from};
ghost use Rattle.crc.specs.Crc.{crc32};
ghost use Rattle.journal.specs.Record.{record_of};
ghost use Rattle.journal.specs.Record as acts;
ghost use Rattle.journal.specs.Record.{record_most};
ghost use Rattle.journal.specs.code.Written.{import_head, destroy_head};

use crc::crc32_of;
use registry::Line;
use wire::bytes::copy_into;
use wire::number::{bytes_of_u16, bytes_of_u32};

// Copies `first` and, behind it, `second`.
fn copy_both(out: &mut [u8], first: &[u8], second: &[u8]) -> usize
    requires { length first.now + length second.now ≤ length out.old }
    ensures { Wrote (first.now ++ second.now) out.old out.new result }
{
    let k = copy_into(out, first);
    let m = copy_into(&mut out[k..], second);
    k + m
}

// Writes the CRC over the first n bytes behind them; all other bytes stay.
fn seal(out: &mut [u8], n: usize) -> usize
    requires { n + 4 ≤ length out.old }
    ensures { (result ≡ n + 4) × (out.new ≡ put out.old n (little_endian_of 4 (crc32 (take n out.old)))) }
{
    let sum = bytes_of_u32(crc32_of(&out[..n]));
    let e = n + 4;
    copy_into(&mut out[n..e], &sum);
    e
}

// All of an import's record that stands before the name.
fn import_head(
    line: Line,
    name_length: usize,
    data_length: usize,
    bits: u16,
    exported: bool,
    verified: bool,
) -> [u8; 9]
    requires { (line.0 < line_count) × (name_length ≤ key_name_most) × (data_length ≤ data_most) }
    ensures { result ≡ import_head line name_length data_length bits exported verified }
{
    let at = line.0;
    let n = bytes_of_u16((6 + (name_length + data_length)) as u16);
    let b = bytes_of_u16(bits);
    [
        2,
        n[0],
        n[1],
        at as u8,
        b[0],
        b[1],
        u8::from(exported),
        u8::from(verified),
        name_length as u8,
    ]
}

pub fn write_import(
    out: &mut [u8],
    line: Line,
    name: &[u8],
    bytes: &[u8],
    bits: u16,
    exported: bool,
    verified: bool,
) -> usize
    requires { (line.0 < line_count) × (length name.now ≤ key_name_most) × (length bytes.now ≤ data_most) × (record_most ≤ length out.old) }
    ensures { Wrote (record_of (acts.importing line (key_from name.now bytes.now bits exported verified))) out.old out.new result }
{
    let head = import_head(line, name.len(), bytes.len(), bits, exported, verified);
    let k = copy_into(out, &head);
    let m = copy_both(&mut out[k..], name, bytes);
    seal(out, k + m)
}

// All of a destroy's record that stands before the name.
fn destroy_head(line: Line, name_length: usize) -> [u8; 4]
    requires { (line.0 < line_count) × (name_length ≤ key_name_most) }
    ensures { result ≡ destroy_head line name_length }
{
    let at = line.0;
    let n = bytes_of_u16((1 + name_length) as u16);
    [3, n[0], n[1], at as u8]
}

pub fn write_destroy(out: &mut [u8], line: Line, name: &[u8]) -> usize
    requires { (line.0 < line_count) × (length name.now ≤ key_name_most) × (record_most ≤ length out.old) }
    ensures { Wrote (record_of (acts.destroying line name.now)) out.old out.new result }
{
    let head = destroy_head(line, name.len());
    let k = copy_both(out, &head, name);
    seal(out, k)
}
