// Plan text, read and written: definitions (specs/) and the laws about them (proofs/). The code is in `plan_records`,
// `plan_lines` and `plan_text`, which read, and in `plan_writing`.

#![tactic(auto)]
