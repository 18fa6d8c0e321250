// Message bodies, read and written.
ghost use Rattle.std.specs.Prelude.{◌≡◌, ◌&&◌, ◌-◌, length, leb};
ghost use Rattle.protobuf.specs.Varint.{varint_at};
ghost use Rattle.protobuf.specs.code.Body.{body_of};
ghost use Rattle.protobuf.specs.Written.{varint, number_field, bytes_field};
ghost use Rattle.probe.specs.code.Answers.{number_most, WroteIf};
ghost use Rattle.probe.specs.code.Numbers.{varint_numbers, body_numbers, schema_of};

use crate::REFUSED;
use fields::Schema;
use messages::ask::input_schema;
use messages::opcodes::{LIST_OPCODES, PING, PSA_EXPORT_PUBLIC_KEY, PSA_IMPORT_KEY};
use protobuf::body::read_body;
use protobuf::varint::read_varint;
use protobuf::write::{write_bytes_field, write_number_field, write_varint};

// The largest field number.
const NUMBER_MOST: u64 = 536870911;

// The varint at `at`: 1, its value and the position behind it, or zeros.
#[unsafe(no_mangle)]
pub extern "C" fn probe_read_varint(s: &[u8], at: usize, out: &mut [u64; 3])
    ensures { out.new ≡ varint_numbers (varint_at s.now at) }
{
    match read_varint(s, at) {
        Some((value, next)) => {
            *out = [1, value, next as u64];
        }
        None => {
            *out = [0, 0, 0];
        }
    }
}

// The four schemas of the operations: 0 no fields, 1 ListOpcodes, 2 Import, 3 Destroy and Export.
fn schema_of(n: u8) -> Schema
    ensures { result ≡ schema_of n }
{
    match n {
        1 => input_schema(LIST_OPCODES),
        2 => input_schema(PSA_IMPORT_KEY),
        3 => input_schema(PSA_EXPORT_PUBLIC_KEY),
        _ => input_schema(PING),
    }
}

// The body `s` read against a schema: 1, then start, count and number of each of the five values; or 0 and where the tag
// of the first unreadable field starts.
#[unsafe(no_mangle)]
pub extern "C" fn probe_read_body(s: &[u8], schema: u8, out: &mut [u64; 16])
    ensures { out.new ≡ body_numbers (body_of (schema_of schema) s.now) }
{
    match read_body(s, schema_of(schema)) {
        Ok(v) => {
            *out = [
                1,
                v.f1.start as u64,
                v.f1.len as u64,
                v.f1.number as u64,
                v.f2.start as u64,
                v.f2.len as u64,
                v.f2.number as u64,
                v.f3.start as u64,
                v.f3.len as u64,
                v.f3.number as u64,
                v.f4.start as u64,
                v.f4.len as u64,
                v.f4.number as u64,
                v.f5.start as u64,
                v.f5.len as u64,
                v.f5.number as u64,
            ];
        }
        Err(at) => {
            *out = [0, at as u64, 0, 0, 0, 0, 0, 0, 0, 0, 0, 0, 0, 0, 0, 0];
        }
    }
}

#[unsafe(no_mangle)]
pub extern "C" fn probe_write_varint(out: &mut [u8], n: u64) -> usize
    ensures { WroteIf (leb 10 (length out.old)) (varint n) out.old out.new result }
{
    if out.len() < 10 {
        return REFUSED;
    }
    write_varint(out, n)
}

#[unsafe(no_mangle)]
pub extern "C" fn probe_write_number_field(out: &mut [u8], number: u64, value: u64) -> usize
    ensures { WroteIf (leb number number_most && leb 20 (length out.old)) (number_field number value) out.old out.new result }
{
    if NUMBER_MOST < number || out.len() < 20 {
        return REFUSED;
    }
    write_number_field(out, number, value)
}

#[unsafe(no_mangle)]
pub extern "C" fn probe_write_bytes_field(out: &mut [u8], number: u64, bytes: &[u8]) -> usize
    ensures { WroteIf (leb number number_most && (leb 20 (length out.old) && leb (length bytes.now) (length out.old - 20))) (bytes_field number bytes.now) out.old out.new result }
{
    if NUMBER_MOST < number || out.len() < 20 || out.len() - 20 < bytes.len() {
        return REFUSED;
    }
    write_bytes_field(out, number, bytes)
}
