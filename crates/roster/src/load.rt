// A roster file read into memory lent for the registry ("Roster, registry, connection, tally"): document 01's R0 to R5.
ghost use Rattle.std.specs.Prelude.{◌≡◌, true, length};
ghost use Rattle.wire.specs.Lists.{all};
ghost use Rattle.keys.specs.Names.{legal_name, application_name_most};
ghost use Rattle.registry.specs.Registry.{registry_size, registry_of};
ghost use Rattle.roster.specs.Roster.{load_roster};
ghost use Rattle.roster.specs.code.Check.{names_at, Within, RosterKnown};

use crate::RosterFault;
use crate::check::{Names, check_record};
use records::file::record_length;
use registry::lines::{clear_lines, write_line};
use registry::{Line, REGISTRY_SIZE};

// The names of a whole roster file, or its first fault.
fn check_roster(file: &[u8]) -> Result<Names, RosterFault>
    ensures { RosterKnown file.now result }
{
    let mut names = Names::none();
    let mut at = 0;
    while at < file.len() {
        check_record(file, at, names)?;
        names.push(at);
        at += record_length(&file[at..]);
    }
    Ok(names)
}

// Writes the lines of the names, and zeros behind them.
fn write_names(file: &[u8], names: Names, registry: &mut [u8])
    requires { (length registry.old ≡ registry_size) × Within file.now names × (all (legal_name application_name_most) (names_at file.now names) ≡ true) }
    ensures { registry.new ≡ registry_of (names_at file.now names) }
{
    for i in 0..names.count {
        write_line(registry, Line(i), names.get(file, i));
    }
    clear_lines(registry, names.count);
}

// Reads a roster file into memory lent for the registry: R0 first, then R1 to R5 in their order, and the first faulty
// record decides. On a fault memory stays as it came; else it holds the names and no keys.
pub fn load_roster(file: &[u8], registry: &mut [u8]) -> Result<(), RosterFault>
    ensures { record { answer = result; registry = registry.new } ≡ load_roster file.now registry.old }
{
    if registry.len() != REGISTRY_SIZE {
        return Err(RosterFault::WrongMemorySize);
    }
    let names = check_roster(file)?;
    write_names(file, names, registry);
    Ok(())
}
