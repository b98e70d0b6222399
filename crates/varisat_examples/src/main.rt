//! Programs that call the library, a file for each, of which one runs after the other.
#![tactic(auto)]

mod counter;
mod packages;
mod unrolling;

use anyhow::Result;

fn main(rt: HostRuntime) -> Result<()> {
    counter::run(&rt)?;
    packages::run(&rt)?;
    unrolling::run(&rt)?;
    Ok(())
}
