// What an answered request counts as ("A whole stream under the rules").
ghost use Rattle.std.specs.Prelude.{◌≡◌};
ghost use Rattle.counters.specs.code.Counted.{event_of};

use crate::Event;
use judgement::Status;
use registry::Line;

// Status 0 is one more served, for the asker; any other is one more refused with that status.
pub fn event_of(asker: Option<Line>, status: Status) -> Event
    ensures { result ≡ event_of asker status }
{
    if status != Status::Success {
        return Event::Refused(status);
    }
    match asker {
        None => Event::ServedUnauthenticated,
        Some(line) => Event::Served(line),
    }
}
