// Which key a name stands for: the application's own, else one that we ship (document 02, "Keys we ship").
#![tactic(auto)]

use registry::Slot;
use wire::span::Span;

pub mod find;
pub mod key;

// Where a key lies: in one of the application's slots, or in the list. Kept with Nothing among the places: what `key` says of none
// (no bytes, 0 bits, no use allowed) is promised too, so each of its functions would take an Option of a place.
#[derive(Clone, Copy)]
pub enum Place {
    Own(Slot),
    Listed(Span),
    Nothing,
}
