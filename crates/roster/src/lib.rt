// The roster file ("Roster, registry, connection, tally"): `check` says what is wrong with a record, `load` reads a whole
// file into memory lent for the registry.
#![tactic(auto)]

ghost use Rattle.std.specs.Prelude.{◌≡◌};
ghost use Rattle.roster.specs.Roster.{fault_number};

mod check;
pub mod load;

// Why a roster file is refused: R0 to R5.
#[derive(Clone, Copy)]
pub enum RosterFault {
    WrongMemorySize,
    CutRecord,
    UnknownTag,
    BadName,
    NinthName,
    RepeatedName,
}

// Document 01's number of a fault: R0 to R5.
impl From<RosterFault> for u32 {
    ghost from_gives = { λ fault number. number ≡ fault_number fault };

    #[tactic(auto, unfolding(crate::specs::Roster::fault_number))]
    fn from(fault: RosterFault) -> u32 {
        match fault {
            RosterFault::WrongMemorySize => 0,
            RosterFault::CutRecord => 1,
            RosterFault::UnknownTag => 2,
            RosterFault::BadName => 3,
            RosterFault::NinthName => 4,
            RosterFault::RepeatedName => 5,
        }
    }
}
