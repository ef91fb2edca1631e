// Reads a job from standard input and prints a line for each of its lines.
#![tactic(auto)]

use job::answer::{LONGEST_JOB, check_length};
use job::job::Job;
use std::io;
use text::input::read_into_room;
use text::lines::Lines;
use text::printed::malformed_line;

fn run(rt: &HostRuntime, text: &[u8]) -> io::Result<()> {
    let heap = rt.alloc();
    let mut job = Job::new(heap);
    for (line, number) in Lines::new(text).zip(1..) {
        let printed = job.answer(heap, Some(line), number)?;
        println!(rt; "{printed}")?;
    }
    Ok(())
}

fn main(rt: HostRuntime) -> io::Result<()> {
    let heap = rt.alloc();
    // One byte more than a job may have, so that a longer one is seen.
    let text = read_into_room(heap, &mut rt.stdin(), LONGEST_JOB + 1)?;
    match check_length(text.len()) {
        Ok(()) => run(&rt, &text),
        Err(fault) => {
            let printed = malformed_line(heap, fault.place)?;
            println!(rt; "{printed}")
        }
    }
}
