#![tactic(auto)]
// yard-run: reads a plan from standard input, starts a lane and settles at most six times, a line each. Where standard input could not be read or
// standard output not be written it says so on standard error, and its exit status is 1.
use std::io;
use std::process::ExitCode;
use yard_text::{Answer, read_up_to};

// One byte more than the longest lawful plan: a longer input meets the same number as the whole would.
const MOST: usize = 16129;

// Settles until an answer is no move, six times at most, and writes a line for each.
fn settle(rt: &impl Print, plan: &[u8], image: &mut [u8]) -> io::Result<()> {
    for _ in 0..6 {
        match Answer::from(yard::yard_settle(plan, image)) {
            Answer::Committed(i) => println!(rt; "move {i}")?,
            other => return println!(rt; "{other}"),
        }
    }
    Ok(())
}

// Starts a lane, and settles it where the plan is accepted.
fn run(rt: &impl Print, plan: &[u8]) -> io::Result<()> {
    let mut image = [0u8; 312];
    match Answer::from(yard::yard_start(plan, &mut image)) {
        Answer::Accepted => settle(rt, plan, &mut image),
        refused => println!(rt; "{refused}"),
    }
}

// Says on standard error why the program failed.
fn failed(rt: &impl Eprint, why: &str) -> ExitCode {
    let _ = eprintln!(rt; "yard-run: {why}");
    ExitCode::FAILURE
}

fn main(rt: HostRuntime) -> ExitCode {
    // A fixed buffer: nothing new is trusted, and the heap would add the contracts of C's allocator.
    let mut buffer = [0u8; MOST];
    let Ok(len) = read_up_to(&mut rt.reader(), &mut buffer) else {
        return failed(&rt, "standard input cannot be read");
    };
    if run(&rt, &buffer[..len]).is_err() {
        return failed(&rt, "standard output cannot be written");
    }
    ExitCode::SUCCESS
}
