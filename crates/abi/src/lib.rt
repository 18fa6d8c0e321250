// The functions exported to C: an enum comes back as a number, and a slice crosses as pointer and length. Kept so: C reads them, and
// other crates' enums take no `From` here.
#![tactic(auto)]

ghost use Rattle.std.specs.Prelude.{◌≡◌};
ghost use Rattle.roster.specs.Roster.{load_roster};
ghost use Rattle.connection.specs.Connection.{open_connection};
ghost use Rattle.counters.specs.Counters.{zero_counters};
ghost use Rattle.service.specs.Contract.{lent_memory, call_with, code_number, ran_with, CallContract};
ghost use Rattle.billing.specs.Outcome.{bill_outcome};
ghost use Rattle.abi.specs.Numbers.{loaded_with, opened_with, numbered, bill_numbered, billed_with};

use billing::BillRefusal;
use billing::whole::write_bill;
use connection::change::{OpenRefusal, open_connection};
use counters::Counters;
use counters::counting::zero_counters;
use roster::load::load_roster;
use service::call::call;
use service::{CallAnswer, Refusal};

pub mod auditing;
pub mod restoring;

// What a call says: 0 if it was taken, else the C number; how many bytes of the chunk it took, and how many it wrote.
#[repr(C)]
#[derive(Clone, Copy)]
pub struct Answer {
    pub code: u32,
    pub taken: usize,
    pub written: usize,
    pub recorded: usize,
}

// What writing a bill says: 0 if it was written, else why not; and how many bytes it has, 0 where there is none.
#[repr(C)]
#[derive(Clone, Copy)]
pub struct Bill {
    pub code: u32,
    pub written: usize,
}

// 0 for a good roster file, else one more than the R number.
#[unsafe(no_mangle)]
pub extern "C" fn razidkot_load_roster(file: &[u8], registry: &mut [u8]) -> u32
    ensures { (result, registry.new) ≡ loaded_with (load_roster file.now registry.old) }
{
    match load_roster(file, registry) {
        Ok(()) => 0,
        Err(fault) => 1 + u32::from(fault),
    }
}

// 0 for a fresh connection, 1 for memory of another size.
#[unsafe(no_mangle)]
pub extern "C" fn razidkot_open_connection(memory: &mut [u8]) -> u32
    ensures { (result, memory.new) ≡ opened_with (open_connection memory.old) }
{
    match open_connection(memory) {
        Ok(()) => 0,
        Err(OpenRefusal::WrongSize) => 1,
    }
}

#[unsafe(no_mangle)]
pub extern "C" fn razidkot_clear_counters(counters: &mut Counters)
    ensures { counters.new ≡ zero_counters }
{
    *counters = zero_counters();
}

#[tactic(auto, unfolding(service::specs::Contract::code_number, service::specs::Refusals::refusal_number))]
pub fn code_number(code: Result<(), Refusal>) -> u32
    ensures { result ≡ code_number code }
{
    match code {
        Ok(()) => 0,
        Err(refusal) => u32::from(refusal),
    }
}

fn number(a: CallAnswer) -> Answer
    ensures { result ≡ numbered a }
{
    Answer {
        code: code_number(a.code),
        taken: a.taken,
        written: a.written,
        recorded: a.recorded,
    }
}

#[unsafe(no_mangle)]
pub extern "C" fn razidkot_call(
    chunk: &[u8],
    connection: &mut [u8],
    registry: &mut [u8],
    list: &[u8],
    counters: &mut Counters,
    response: &mut [u8],
    journal: &mut [u8],
) -> Answer
    ensures { CallContract list.now (lent_memory connection.old registry.old counters.old) (call_with chunk.now response.old journal.old) (ran_with result.code result.taken result.written result.recorded (lent_memory connection.new registry.new counters.new) response.new journal.new) }
{
    number(call(
        chunk, connection, registry, list, counters, response, journal,
    ))
}

#[tactic(auto, unfolding(crate::specs::Numbers::billed_number, crate::specs::Numbers::billed_bytes))]
fn number_billed(billed: Result<usize, BillRefusal>) -> Bill
    ensures { result ≡ bill_numbered billed }
{
    match billed {
        Ok(written) => Bill { code: 0, written },
        Err(BillRefusal::BufferTooSmall) => Bill {
            code: 1,
            written: 0,
        },
        Err(BillRefusal::ConnectionIllFormed) => Bill {
            code: 2,
            written: 0,
        },
        Err(BillRefusal::RegistryIllFormed) => Bill {
            code: 3,
            written: 0,
        },
    }
}

// 0 for a bill that was written, 1 for a buffer below billing's BILL_MOST bytes, 2 for an ill-formed connection, 3 for such a registry.
#[unsafe(no_mangle)]
pub extern "C" fn razidkot_bill(
    out: &mut [u8],
    counters: &Counters,
    registry: &[u8],
    connection: &[u8],
) -> Bill
    ensures { (result, out.new) ≡ billed_with (bill_outcome out.old (lent_memory connection.now registry.now counters.now)) }
{
    number_billed(write_bill(out, *counters, registry, connection))
}
