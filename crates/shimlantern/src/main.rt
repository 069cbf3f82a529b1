// The program: reads a plan from standard input, of any length in bounded memory, filters it with room for 2,048 steps, and prints the listing.
#![tactic(auto)]

use std::io;
use std::process::ExitCode;

// Says on standard error what failed, with the system's reason.
fn fail(rt: &impl Eprint, what: &str, reason: io::Error) -> ExitCode {
    let _ = eprintln!(rt; "shimlantern: {what}: {reason}");
    ExitCode::FAILURE
}

// What cannot be read or written is said on standard error, with the system's reason.
fn main(rt: HostRuntime) -> ExitCode {
    let mut out = [0u8; listing::ROOM];
    let n = match text_listing::list_input(&mut rt.stdin(), &mut out) {
        Ok(n) => n,
        Err(reason) => return fail(&rt, "standard input cannot be read", reason),
    };
    match rt.write_all(&out[..n]) {
        Ok(()) => ExitCode::SUCCESS,
        Err(reason) => fail(&rt, "standard output cannot be written", reason),
    }
}
