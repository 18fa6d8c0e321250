// A captured stream read, and run through the call in chunks.
ghost use Rattle.std.specs.Prelude.{true, ◌≡◌, length};
ghost use Rattle.connection.specs.Connection.{connection_size};
ghost use Rattle.registry.specs.WellFormed.{well_formed_registry};
ghost use Rattle.shipped.specs.Shipped.{well_formed_list};
ghost use Rattle.counters.specs.Counters.{counter_most};
ghost use Rattle.service.specs.Contract.{lent_memory};
ghost use Rattle.starting.specs.code.Stream.{After};

use connection::change::open_connection;
use counters::counting::zero_counters;
use file_input::{BUFFER_SIZE, CHUNK_SIZE, read_some};
use starting::feed::{Taken, feed};
use starting::files::{Input, TURNS, is_end};
use std::fs::File;

// Runs a stream through the call, from a fresh connection and zero counters, with a good list.
pub fn take_stream(
    stream: &mut File,
    connection: &mut [u8],
    registry: &mut [u8],
    list: &[u8],
) -> Taken
    requires { (length connection.old ≡ connection_size) × (well_formed_registry registry.old ≡ true) × (well_formed_list list.now ≡ true) }
    ensures { After list.now registry.old counter_most (lent_memory connection.new registry.new result.counters) }
{
    let _ = open_connection(connection);
    let mut chunk = [0; CHUNK_SIZE];
    let mut response = [0; BUFFER_SIZE];
    let mut journal = [0; BUFFER_SIZE];
    let mut counters = zero_counters();
    for _turn in 0..TURNS {
        let input = read_some(stream, &mut chunk);
        let Input::Bytes(n) = input else {
            return Taken {
                counters,
                is_whole: is_end(input),
            };
        };
        counters = feed(
            &chunk[..n],
            connection,
            registry,
            list,
            counters,
            &mut response,
            &mut journal,
        );
    }
    Taken {
        counters,
        is_whole: false,
    }
}
