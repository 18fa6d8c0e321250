// The journal's reader, exported to C (document 02, "Surviving a power cut"). Kept: its numbers, which C reads.
ghost use Rattle.std.specs.Prelude.{◌≡◌};
ghost use Rattle.journal.specs.Memory.{begin_state, read_outcome};
ghost use Rattle.abi.specs.Restoring.{begun_with, said_number, restored_numbered, restored_with};

use journal::read::{ReadAnswer, Said, read_journal};
use journal::state::{BeginRefusal, begin_journal};

// What reading says: 0 where the bytes end with a record, 1 to 3 for J1 to J3, 4 within a record, 5 for an ill-formed registry, 6
// for an ill-formed state; how many bytes of the chunk it took, and how many bytes the kept records take.
#[repr(C)]
#[derive(Clone, Copy)]
pub struct Restored {
    pub code: u32,
    pub taken: usize,
    pub kept: u64,
}

// 0 for a reader that begins, 1 for memory of another size.
#[unsafe(no_mangle)]
pub extern "C" fn razidkot_journal_begin(state: &mut [u8]) -> u32
    ensures { (result, state.new) ≡ begun_with (begin_state state.old) }
{
    match begin_journal(state) {
        Ok(()) => 0,
        Err(BeginRefusal::WrongSize) => 1,
    }
}

#[tactic(auto, unfolding(crate::specs::Restoring::said_number))]
fn said_number(said: Said) -> u32
    ensures { result ≡ said_number said }
{
    match said {
        Said::AtBorder => 0,
        Said::Refused(fault) => u32::from(u8::from(fault)),
        Said::Waiting => 4,
        Said::RegistryIllFormed => 5,
        Said::StateIllFormed => 6,
    }
}

fn number_restored(a: ReadAnswer) -> Restored
    ensures { result ≡ restored_numbered a }
{
    Restored {
        code: said_number(a.said),
        taken: a.taken,
        kept: a.kept,
    }
}

#[unsafe(no_mangle)]
pub extern "C" fn razidkot_journal_read(
    state: &mut [u8],
    registry: &mut [u8],
    chunk: &[u8],
) -> Restored
    ensures { (result, (state.new, registry.new)) ≡ restored_with (read_outcome registry.old state.old chunk.now) }
{
    number_restored(read_journal(state, registry, chunk))
}
