// What is printed of a start: the line that says why there is none, or the bill of what the stream left.
ghost use Rattle.std.specs.Prelude.{true, ◌≡◌, ◌≤◌, length};
ghost use Rattle.wire.specs.code.Wrote.{Wrote};
ghost use Rattle.connection.specs.Connection.{well_formed_connection};
ghost use Rattle.registry.specs.WellFormed.{well_formed_registry};
ghost use Rattle.service.specs.Contract.{lent_memory};
ghost use Rattle.billing.specs.Bill.{no_file, refused_roster, refused_list};
ghost use Rattle.billing.specs.Outcome.{bill_most, bill_in};
ghost use Rattle.starting.specs.Start.{line_of};

use crate::start::StartRefusal;
use billing::text::{write_decimal, write_word};
use billing::whole::write_bill;
use counters::Counters;
use roster::RosterFault;

pub fn write_no_file(out: &mut [u8]) -> usize
    requires { bill_most ≤ length out.old }
    ensures { Wrote no_file out.old out.new result }
{
    write_word(out, 0, b"no file\n")
}

// The line of a refused roster, as `roster R3`.
fn write_refused(out: &mut [u8], fault: RosterFault) -> usize
    requires { bill_most ≤ length out.old }
    ensures { Wrote (refused_roster fault) out.old out.new result }
{
    let named = write_word(out, 0, b"roster R");
    let numbered = write_decimal(out, named, u64::from(u32::from(fault)));
    write_word(out, numbered, b"\n")
}

// The line of a bad list.
fn write_list_refused(out: &mut [u8]) -> usize
    requires { bill_most ≤ length out.old }
    ensures { Wrote refused_list out.old out.new result }
{
    write_word(out, 0, b"list C6\n")
}

// The line that says why there is no start; a good one has none.
#[tactic(auto, unfolding(crate::specs::Start::line_of))]
pub fn write_line(out: &mut [u8], source: Result<(), StartRefusal>) -> usize
    requires { bill_most ≤ length out.old }
    ensures { Wrote (line_of source) out.old out.new result }
{
    match source {
        Err(StartRefusal::Unreadable) => write_no_file(out),
        Err(StartRefusal::Faulty(fault)) => write_refused(out, fault),
        Err(StartRefusal::BadList) => write_list_refused(out),
        Ok(()) => 0,
    }
}

// The bill of what a stream left in memory.
pub fn write_memory(out: &mut [u8], counters: Counters, registry: &[u8], connection: &[u8]) -> usize
    requires { (bill_most ≤ length out.old) × (well_formed_connection connection.now ≡ true) × (well_formed_registry registry.now ≡ true) }
    ensures { Wrote (bill_in (lent_memory connection.now registry.now counters)) out.old out.new result }
{
    match write_bill(out, counters, registry, connection) {
        Ok(size) => size,
        // Never: there is room, and memory is well formed.
        _ => 0,
    }
}
