// The whole bill.
ghost use Rattle.std.specs.Prelude.{true, ◌≡◌, ◌≤◌, length};
ghost use Rattle.wire.specs.code.Wrote.{Wrote};
ghost use Rattle.connection.specs.Connection.{well_formed_connection};
ghost use Rattle.registry.specs.WellFormed.{well_formed_registry};
ghost use Rattle.service.specs.Contract.{lent_memory};
ghost use Rattle.billing.specs.Outcome.{bill_most, bill_in, bill_outcome};

use crate::lines::{write_applications, write_count, write_keys, write_refusals};
use crate::{BILL_MOST, BillRefusal};
use connection::check::held_bytes;
use counters::Counters;

// The bill's lines, one behind the other; no bill is longer than BILL_MOST.
fn write_lines(out: &mut [u8], counters: Counters, registry: &[u8], connection: &[u8]) -> usize
    requires { (well_formed_connection connection.now ≡ true) × (well_formed_registry registry.now ≡ true) × (bill_most ≤ length out.old) }
    ensures { Wrote (bill_in (lent_memory connection.now registry.now counters)) out.old out.new result × (result ≤ bill_most) }
{
    let taken = write_count(out, 0, b"taken", counters.taken);
    let named = write_applications(out, taken, registry, &counters.served);
    let keyed = write_keys(out, named, registry);
    let open = write_count(out, keyed, b"open", counters.unauthenticated);
    let statuses = write_refusals(out, open, &counters.refused);
    let dropped = write_count(out, statuses, b"dropped", counters.dropped);
    write_count(out, dropped, b"held", held_bytes(connection))
}

// Writes the bill over the front of `out`; the bytes behind it stay, and where there is no bill all of them.
pub fn write_bill(
    out: &mut [u8],
    counters: Counters,
    registry: &[u8],
    connection: &[u8],
) -> Result<usize, BillRefusal>
    ensures { record { answer = result; out = out.new } ≡ bill_outcome out.old (lent_memory connection.now registry.now counters) }
{
    if out.len() < BILL_MOST {
        return Err(BillRefusal::BufferTooSmall);
    }
    if !connection::check::is_well_formed(connection) {
        return Err(BillRefusal::ConnectionIllFormed);
    }
    if !registry::check::is_well_formed(registry) {
        return Err(BillRefusal::RegistryIllFormed);
    }
    Ok(write_lines(out, counters, registry, connection))
}
