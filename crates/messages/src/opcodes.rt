// The listed opcodes, and whose they are ("Operations and their fields").
ghost use Rattle.std.specs.Prelude.{◌≡◌, ◌++◌};
ghost use Rattle.wire.specs.Lists.{one_of};
ghost use Rattle.messages.specs.Opcodes.{core_opcodes, keystore_opcodes, opcodes_of};

// Kept as numbers: a header's opcode may be none of these, and what takes one answers for each number.
pub const PING: u16 = 1;

pub const LIST_PROVIDERS: u16 = 8;

pub const LIST_OPCODES: u16 = 9;

pub const PSA_DESTROY_KEY: u16 = 3;

pub const PSA_ASYMMETRIC_VERIFY: u16 = 5;

pub const PSA_IMPORT_KEY: u16 = 6;

pub const PSA_EXPORT_PUBLIC_KEY: u16 = 7;

// The core's, and the keystore's, as a response lists them.
pub const CORE: [u8; 3] = [PING as u8, LIST_PROVIDERS as u8, LIST_OPCODES as u8];

pub const KEYSTORE: [u8; 4] = [
    PSA_DESTROY_KEY as u8,
    PSA_ASYMMETRIC_VERIFY as u8,
    PSA_IMPORT_KEY as u8,
    PSA_EXPORT_PUBLIC_KEY as u8,
];

#[tactic(auto, unfolding(wire::specs::Lists::one_of))]
pub fn is_core(opcode: u16) -> bool
    ensures { result ≡ one_of core_opcodes opcode }
{
    matches!(opcode, PING | LIST_PROVIDERS | LIST_OPCODES)
}

#[tactic(auto, unfolding(wire::specs::Lists::one_of))]
fn is_keystore(opcode: u16) -> bool
    ensures { result ≡ one_of keystore_opcodes opcode }
{
    matches!(
        opcode,
        PSA_DESTROY_KEY | PSA_ASYMMETRIC_VERIFY | PSA_IMPORT_KEY | PSA_EXPORT_PUBLIC_KEY
    )
}

#[tactic(auto, unfolding(wire::specs::Lists::one_of))]
pub fn is_listed(opcode: u16) -> bool
    ensures { result ≡ one_of (core_opcodes ++ keystore_opcodes) opcode }
{
    is_core(opcode) || is_keystore(opcode)
}

// Whether a provider that there is has the operation.
#[tactic(auto, unfolding(crate::specs::Opcodes::opcodes_of))]
pub fn is_opcode_of(provider: u8, opcode: u16) -> bool
    ensures { result ≡ one_of (opcodes_of provider) opcode }
{
    if provider == 0 {
        is_core(opcode)
    } else {
        is_keystore(opcode)
    }
}
