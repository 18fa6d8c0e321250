// What a name and a key may be ("Operations and their fields"; "Roster, registry, connection, tally").
#![tactic(auto)]

pub mod bits;
pub mod data;
pub mod marks;
pub mod names;

pub const KEY_NAME_MOST: usize = 32;

pub const DATA_MOST: usize = 600;

// The bits of a key that a registry may hold; Import takes fewer.
pub const BITS_LEAST: usize = 1024;

pub const BITS_MOST: usize = 4096;

pub const APPLICATION_NAME_MOST: usize = 64;
