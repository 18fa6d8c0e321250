// RSA public keys in strict DER, read where they lie (RFC 8017, appendix A.1.1).
#![tactic(auto)]

pub mod der;
pub mod key;
