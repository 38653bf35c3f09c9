// Plays the cases of standard input, and prints what each call answered.
#![tactic(auto)]

mod answers;
mod ask;
mod case;
mod fault;
mod names;
mod play;
mod state;
mod tree;
mod words;

use answers::print_tags;
use case::Case;
use fault::Fault;
use names::Names;
use play::follow;
use std::io;

// Follows all lines, up to the first that it cannot follow, of which it says why.
fn play_all(rt: &HostRuntime, text: &str) -> Result<(), Fault> {
    let names = Names::new(rt.alloc())?;
    let mut case = Case::new(rt.alloc(), &names);
    for line in text.lines() {
        if let Err(fault) = follow(rt, &mut case, line) {
            println!(rt; "{fault}: {line}")?;
            return Ok(());
        }
    }
    print_tags(rt, &case.state)
}

// Plays what standard input holds.
fn read_and_play(rt: &HostRuntime) -> Result<(), Fault> {
    let text = io::read_to_string(rt.alloc(), rt.stdin())?;
    play_all(rt, text.as_str())
}

// Plays the cases, or prints why they stop.
fn main(rt: HostRuntime) -> io::Result<()> {
    match read_and_play(&rt) {
        Ok(()) => Ok(()),
        Err(fault) => println!(rt; "{fault}"),
    }
}
