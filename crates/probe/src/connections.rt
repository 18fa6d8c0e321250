// A connection in lent memory.
ghost use Rattle.std.specs.Prelude.{◌≡◌};
ghost use Rattle.connection.specs.Connection.{well_formed_connection, open_connection};
ghost use Rattle.probe.specs.code.Answers.{is_fresh};

use connection::change::open_connection;
use connection::check::is_well_formed;

#[unsafe(no_mangle)]
pub extern "C" fn probe_connection_is_well_formed(memory: &[u8]) -> bool
    ensures { result ≡ well_formed_connection memory.now }
{
    is_well_formed(memory)
}

#[unsafe(no_mangle)]
pub extern "C" fn probe_open_connection(memory: &mut [u8]) -> bool
    ensures { (result ≡ is_fresh (open_connection memory.old).answer) × (memory.new ≡ (open_connection memory.old).memory) }
{
    open_connection(memory).is_ok()
}
