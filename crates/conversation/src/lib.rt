// Theorems over both ends: what the client writes the service reads, and what the service writes the client reads. There is no code.
#![tactic(auto)]
