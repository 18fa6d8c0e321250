// Which lengths a key's data may have.
ghost use Rattle.std.specs.Prelude.{◌≡◌, List, ℕ, length};
ghost use Rattle.keys.specs.Key.{legal_data};

use crate::DATA_MOST;

// Whether data of so many bytes are legal: their content is not looked at.
#[tactic(auto, unfolding(crate::specs::Key::legal_data))]
pub fn is_legal_data(size: usize) -> bool
    ensures { (bytes : List ℕ) → length bytes ≡ size → result ≡ legal_data bytes }
{
    (1..=DATA_MOST).contains(&size)
}
