// Judges a history file from standard input: prints one line, the verdict or the refusal.
#![tactic(auto)]

use reports::judge_stream;

// An error is printed by its text, as `anyhow` does.
fn main(rt: HostRuntime) -> anyhow::Result<()> {
    judge_stream(rt.alloc(), rt.stdin(), &mut rt.stdout())?;
    Ok(())
}
