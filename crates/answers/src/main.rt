// Reads questions from standard input, one to a line, and prints a line for each.
#![tactic(auto)]

use points::fault::Cause;
use questions::answer::answer_line;
use questions::ask::Answer;
use std::io;
use text::input::read_into_room;
use text::lines::Lines;

// The longest input, in bytes.
const LONGEST_INPUT: usize = 1_000_000;

fn run(rt: &HostRuntime, text: &[u8]) -> io::Result<()> {
    for line in Lines::new(text) {
        let printed = answer_line(rt.alloc(), Some(line))?;
        println!(rt; "{printed}")?;
    }
    Ok(())
}

fn main(rt: HostRuntime) -> io::Result<()> {
    // One byte more than an input may have, so that a longer one is seen.
    let text = read_into_room(rt.alloc(), &mut rt.stdin(), LONGEST_INPUT + 1)?;
    if text.len() > LONGEST_INPUT {
        let refusal = Answer::Refused(Cause::Malformed);
        return println!(rt; "{refusal}");
    }
    run(&rt, &text)
}
