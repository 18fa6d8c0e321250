// Requests on a stream of bytes, whatever the judgement of one request may be ("A whole stream under the rules"). specs/
// defines it, src/ has the code of framing, and proofs/ has what holds of every list of calls.
#![tactic(auto)]

pub mod frame;
