// Roster and list made into a start. The first that applies is said: a file that can't be read, the roster's fault, a bad list.
ghost use Rattle.std.specs.Prelude.{◌≡◌, length};
ghost use Rattle.shipped.specs.Shipped.{well_formed_list};
ghost use Rattle.starting.specs.Start.{list_checked, with_list, with_file};
ghost use Rattle.starting.specs.code.Stream.{KeptWithin};
ghost use Rattle.starting.specs.code.Sources.{source_with, load_front};

use roster::RosterFault;
use roster::load::load_roster;
use shipped::check::is_well_formed;

// Why there is no start, by the roster file, the list of keys and what else is read.
#[derive(Clone, Copy)]
pub enum StartRefusal {
    Faulty(RosterFault),
    BadList,
    Unreadable,
}

// Loads what was kept of a roster file, no more and no fewer bytes.
#[tactic(auto, unfolding(crate::specs::code::Sources::load_front, crate::specs::code::Sources::source_of, crate::specs::code::Sources::source_for))]
pub fn load_front(
    front: &[u8],
    read: Option<usize>,
    registry: &mut [u8],
) -> Result<(), StartRefusal>
    requires { KeptWithin (length front.now) read }
    ensures { source_with result registry.new ≡ load_front front.now read registry.old }
{
    let Some(size) = read else {
        return Err(StartRefusal::Unreadable);
    };
    load_roster(&front[..size], registry).map_err(StartRefusal::Faulty)
}

#[tactic(auto, unfolding(crate::specs::Start::list_checked))]
fn check_list(list: &[u8]) -> Result<(), StartRefusal>
    ensures { result ≡ list_checked (well_formed_list list.now) }
{
    if !is_well_formed(list) {
        return Err(StartRefusal::BadList);
    }
    Ok(())
}

// What becomes of the list, behind what became of the roster file: a roster's fault comes before a bad list.
#[tactic(auto, unfolding(crate::specs::Start::with_list))]
pub fn with_list(source: Result<(), StartRefusal>, list: &[u8]) -> Result<(), StartRefusal>
    ensures { result ≡ with_list source (well_formed_list list.now) }
{
    source?;
    check_list(list)
}

// What becomes of one file more, that is only read: unreadable, it comes before a faulty roster and a bad list.
#[tactic(auto, unfolding(crate::specs::Start::with_file))]
pub fn with_file(source: Result<(), StartRefusal>, is_whole: bool) -> Result<(), StartRefusal>
    ensures { result ≡ with_file source is_whole }
{
    if !is_whole {
        return Err(StartRefusal::Unreadable);
    }
    source
}
