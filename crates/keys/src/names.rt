// Which names are legal.
ghost use Rattle.std.specs.Prelude.{◌≡◌};
ghost use Rattle.wire.specs.Lists.{all};
ghost use Rattle.keys.specs.Names.{is_name_byte, legal_name};

// Whether all bytes may stand in a name. The fold is not left early, as `all` would be, so that it runs on vectors.
fn are_name_bytes(s: &[u8]) -> bool
    ensures { result ≡ all is_name_byte s.now }
{
    s.iter()
        .fold(true, |legal, byte| legal & byte.is_ascii_graphic())
}

// Whether the bytes are a name of at most `most`.
#[tactic(auto, unfolding(crate::specs::Names::legal_name))]
pub fn is_legal(s: &[u8], most: usize) -> bool
    ensures { result ≡ legal_name most s.now }
{
    (1..=most).contains(&s.len()) && are_name_bytes(s)
}
