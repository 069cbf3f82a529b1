// The log checker and the filter, over the definitions of `steps` and the turns of `turns`. Their log is three number slices, as 01 orders of this
// core ("Where each language form goes"); `step_log` has it as step records. The three stay three parameters: the checker reads them where the
// filter writes them, so that a struct for them would be two, each opened at once by the functions that get it.
#![tactic(auto)]

mod entry;
pub mod filter;
mod kept;
pub mod replay;
