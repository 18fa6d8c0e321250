// The records of a roster file: each has a name, and the first fault of one decides.
ghost use Rattle.std.specs.Prelude.{◌≡◌, not, [], ◌≤◌, ◌<◌, length, drop, get_or};
ghost use Rattle.keys.specs.Names.{is_new};
ghost use Rattle.registry.specs.Registry.{line_count};
ghost use Rattle.roster.specs.code.Check.{loaded_of, fault_in, names_at, no_names, with_name, Within};

use crate::RosterFault;
use keys::APPLICATION_NAME_MOST;
use keys::names::is_legal;
use records::file::{is_whole, value_in};
use registry::LINES;
use wire::bytes::equal;

// Where the names' records begin in a roster file: the first `count` of `starts`. Kept as an array with a count beside it, since
// memory is fixed: a roster has at most LINES names.
#[derive(Clone, Copy)]
pub struct Names {
    pub count: usize,
    pub starts: [usize; LINES],
}

impl Names {
    #[tactic(auto, unfolding(crate::specs::code::Check::no_names))]
    pub fn none() -> Names
        ensures { result ≡ no_names }
    {
        Names {
            count: 0,
            starts: [0; LINES],
        }
    }

    // One name more, whose record begins at `at`.
    #[tactic(auto, unfolding(crate::specs::code::Check::with_name))]
    pub fn push(&mut self, at: usize)
        requires { self.old.count < line_count }
        ensures { self.new ≡ with_name self.old at }
    {
        self.starts[self.count] = at;
        self.count += 1;
    }

    // The name number i.
    pub fn get<'a>(self, file: &'a [u8], i: usize) -> &'a [u8]
        requires { Within file.now self × (i < self.count) }
        ensures { result.now ≡ get_or (names_at file.now self) i [] }
    {
        let at = self.starts[i];
        value_in(&file[at..])
    }

    // Whether a name is one of these.
    fn contains(self, file: &[u8], name: &[u8]) -> bool
        requires { Within file.now self }
        ensures { result ≡ not (is_new name.now (names_at file.now self)) }
    {
        for i in 0..self.count {
            if equal(name, self.get(file, i)) {
                return true;
            }
        }
        false
    }
}

// The first fault of the record at `at`, with the names before it.
pub fn check_record(file: &[u8], at: usize, names: Names) -> Result<(), RosterFault>
    requires { (at ≤ length file.now) × Within file.now names }
    ensures { result ≡ loaded_of (fault_in (names_at file.now names) (drop at file.now)) }
{
    let bytes = &file[at..];
    if !is_whole(bytes) {
        return Err(RosterFault::CutRecord);
    }
    if bytes[0] != 1 {
        return Err(RosterFault::UnknownTag);
    }
    let name = value_in(bytes);
    if !is_legal(name, APPLICATION_NAME_MOST) {
        return Err(RosterFault::BadName);
    }
    if LINES <= names.count {
        return Err(RosterFault::NinthName);
    }
    if names.contains(file, name) {
        return Err(RosterFault::RepeatedName);
    }
    Ok(())
}
