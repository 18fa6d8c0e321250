// The search for a key by name: among the application's own, then in the list ("Keys we ship").
ghost use Rattle.std.specs.Prelude.{◌≡◌, true, ◌<◌, length};
ghost use Rattle.registry.specs.Registry.{line_count, registry_size};
ghost use Rattle.shipped.specs.Shipped.{well_formed_list};
ghost use Rattle.lookup.specs.code.Places.{KeyAt};

use crate::Place;
use registry::Line;
use registry::find::find_slot;
use shipped::find::find_listed;

// Where the key with the name lies. An own key is found whatever it allows; the empty name is that of a free slot.
pub fn find_key(registry: &[u8], list: &[u8], line: Line, name: &[u8]) -> Place
    requires { (length registry.now ≡ registry_size) × (line.0 < line_count) × (well_formed_list list.now ≡ true) }
    ensures { KeyAt registry.now list.now line name.now result }
{
    if let Some(slot) = find_slot(registry, line, name) {
        return Place::Own(slot);
    }
    match find_listed(list, name) {
        Some(span) => Place::Listed(span),
        None => Place::Nothing,
    }
}
