// Program `judge` once more, so that it runs on a second stored file, one that is refused.
#![tactic(auto)]

use reports::judge_stream;

// An error is printed by its text, as `anyhow` does.
fn main(rt: HostRuntime) -> anyhow::Result<()> {
    judge_stream(rt.alloc(), rt.stdin(), &mut rt.stdout())?;
    Ok(())
}
