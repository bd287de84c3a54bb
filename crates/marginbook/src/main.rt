// The margin book as a program: event lines on standard input, answers on standard output.
#![tactic(auto)]

use desk::serve;
use std::io::{Read, Write};

// One byte more than is ever served, so that a longer input is seen to be longer.
const READ_AT_MOST: u64 = 65_537;

fn run(rt: &HostRuntime) -> anyhow::Result<()> {
    let mut input = Vec::new(rt.alloc());
    rt.stdin().take(READ_AT_MOST).read_to_end(&mut input)?;
    let output = serve(rt.alloc(), input.as_slice())?;
    rt.stdout().write_all(output.text.as_bytes())?;
    output.ending?;
    Ok(())
}

fn main(rt: HostRuntime) -> anyhow::Result<()> {
    run(&rt)
}
