// RSASSA-PKCS1-v1_5 signatures with SHA-256, checked (RFC 8017, section 8.2.2).
#![tactic(auto)]

pub mod encoding;
pub mod power;
pub mod verify;
