// A journal file read, and its records carried out on the roster's registry.
use file_input::{CHUNK_SIZE, read_rest, read_some};
use journal::Fault;
use journal::read::{Said, read_journal};
use journal::state::{STATE_SIZE, begin_journal};
use starting::files::{Input, TURNS, is_end};
use std::fs::File;

// Why a journal file restores nothing that is used. A cut end is no fault.
#[derive(Clone, Copy)]
pub enum JournalRefusal {
    Faulty(Fault),
    Unreadable,
}

// What is known after a chunk.
fn restored_by(said: Said) -> Result<(), JournalRefusal> {
    match said {
        Said::Refused(fault) => Err(JournalRefusal::Faulty(fault)),
        Said::Waiting | Said::AtBorder => Ok(()),
        // Never: registry and state are well formed.
        Said::RegistryIllFormed | Said::StateIllFormed => Err(JournalRefusal::Unreadable),
    }
}

// What a file comes to that ended so.
fn ended(restored: Result<(), JournalRefusal>, is_whole: bool) -> Result<(), JournalRefusal> {
    if is_whole {
        return restored;
    }
    Err(JournalRefusal::Unreadable)
}

// Reads a file to its end. Once a record is refused, each call says so again and takes nothing.
fn take_journal(
    file: &mut File,
    registry: &mut [u8],
    state: &mut [u8],
    chunk: &mut [u8],
) -> Result<(), JournalRefusal> {
    // Never refused: the state has the one size.
    let _ = begin_journal(state);
    let mut restored = Ok(());
    for _ in 0..TURNS {
        let input = read_some(file, chunk);
        let Input::Bytes(n) = input else {
            return ended(restored, is_end(input));
        };
        restored = restored_by(read_journal(state, registry, &chunk[..n]).said);
    }
    Err(JournalRefusal::Unreadable)
}

// Restores a registry, where roster and list are good; else the file is only read to its end.
pub fn restore(
    journal: Option<File>,
    is_good: bool,
    registry: &mut [u8],
) -> Result<(), JournalRefusal> {
    let Some(mut file) = journal else {
        return Err(JournalRefusal::Unreadable);
    };
    if !is_good {
        return ended(Ok(()), read_rest(&mut file));
    }
    let mut state = [0u8; STATE_SIZE];
    let mut chunk = [0; CHUNK_SIZE];
    take_journal(&mut file, registry, &mut state, &mut chunk)
}
