// A file of records: tag, length, value ("Roster, registry, connection, tally").
#![tactic(auto)]

pub mod file;
