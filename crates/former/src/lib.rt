// What a request changed, in the words of before, and how far answers are still those: definitions (specs/) and the laws about them (proofs/). No other
// crate cites it.

#![tactic(auto)]
