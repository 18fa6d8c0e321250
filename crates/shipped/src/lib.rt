// The list of keys that the group hands every site (document 02, "Keys we ship"): `check` is C6, `find` the search by name.
#![tactic(auto)]

pub mod check;
pub mod find;
mod marks;
mod pairs;

// The most pairs that a list may have.
pub const LISTED_MOST: usize = 64;
