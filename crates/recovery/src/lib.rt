// Theorems: what the journal of a stream of requests gives back after a power cut. There is no code.
#![tactic(auto)]
