// A session with a shelf: makes it, puts versions and asks it, as the lines on standard input say, and prints each line
// with its answer.
#![tactic(auto)]

mod answers;
mod command;

use answers::answer;
use command::{Unread, parse};
use std::io;

fn main(rt: HostRuntime) -> io::Result<()> {
    let mut held = None;
    for line in rt.lines(rt.alloc()) {
        let line = line?;
        let text = line.as_str();
        if text.is_empty() || text.starts_with('#') {
            continue;
        }
        match parse(rt.alloc(), text) {
            Ok(command) => answer(&rt, &mut held, text, command)?,
            Err(Unread::NotUnderstood) => println!(rt; "{text} = not understood")?,
            Err(Unread::NoMemory(error)) => return Err(io::Error::from(error)),
        }
    }
    Ok(())
}
