// No code: `specs/` and `proofs/` say that what an application gets is its own doing.
#![tactic(auto)]
