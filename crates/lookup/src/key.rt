// What is said of a key, read where it lies ("Keys we ship").
#![tactic(auto, using(crate::proofs::LookupLaws::of_entries), unfolding(crate::specs::Lookup::shipped_key, crate::specs::code::Places::Within, crate::specs::code::Places::key_held, crate::specs::code::Places::key_at))]

ghost use Rattle.std.specs.Prelude.{◌≡◌, true, ◌<◌};
ghost use Rattle.registry.specs.Registry.{line_count};
ghost use Rattle.registry.specs.WellFormed.{well_formed_registry};
ghost use Rattle.lookup.specs.code.Places.{Within, key_at};

use crate::Place;
use registry::Line;
use registry::key::key_data;
use rsa_key::key::modulus_bits;

// A key's data as it lies in whichever of the two holds it.
pub fn key_bytes<'a>(registry: &'a [u8], list: &'a [u8], line: Line, place: Place) -> &'a [u8]
    requires { (well_formed_registry registry.now ≡ true) × (line.0 < line_count) × Within list.now place }
    ensures { result.now ≡ (key_at registry.now list.now line place).bytes }
{
    match place {
        Place::Own(slot) => key_data(registry, line, slot),
        Place::Listed(span) => span.of(list),
        Place::Nothing => &list[..0],
    }
}

// A key's bits: those of an own key are kept with it, those of a listed one are its modulus's.
pub fn key_bits(registry: &[u8], list: &[u8], line: Line, place: Place) -> usize
    requires { (well_formed_registry registry.now ≡ true) × (line.0 < line_count) × Within list.now place }
    ensures { result ≡ (key_at registry.now list.now line place).bits }
{
    match place {
        Place::Own(slot) => registry::key::key_bits(registry, line, slot),
        Place::Listed(span) => modulus_bits(span.of(list)),
        Place::Nothing => 0,
    }
}

// Whether a key may be exported; a listed one may.
pub fn is_exportable(registry: &[u8], list: &[u8], line: Line, place: Place) -> bool
    requires { (well_formed_registry registry.now ≡ true) × (line.0 < line_count) × Within list.now place }
    ensures { result ≡ (key_at registry.now list.now line place).export_allowed }
{
    match place {
        Place::Own(slot) => registry::key::is_exportable(registry, line, slot),
        Place::Listed(_) => true,
        Place::Nothing => false,
    }
}

// Whether a key may verify; a listed one may.
pub fn is_verifiable(registry: &[u8], list: &[u8], line: Line, place: Place) -> bool
    requires { (well_formed_registry registry.now ≡ true) × (line.0 < line_count) × Within list.now place }
    ensures { result ≡ (key_at registry.now list.now line place).verify_allowed }
{
    match place {
        Place::Own(slot) => registry::key::is_verifiable(registry, line, slot),
        Place::Listed(_) => true,
        Place::Nothing => false,
    }
}
