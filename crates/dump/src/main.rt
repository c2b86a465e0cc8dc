// Prints a history file from standard input: a line for each record, and how many there were of each kind, or the first
// refusal.
#![tactic(auto)]

mod counts;
mod streams;
mod text;

// An error is printed by its text, as `anyhow` does.
fn main(rt: HostRuntime) -> anyhow::Result<()> {
    streams::dump_stream(rt.alloc(), rt.stdin(), &mut rt.stdout())?;
    Ok(())
}

#[cfg(test)]
mod tests;
