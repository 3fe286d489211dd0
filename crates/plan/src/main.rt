// The plan program: reads a sheet from standard input, and prints the plan of least energy of its jobs on its ladder, each segment as
// step and ticks, and then the energy; or else one line that says why the sheet is refused, and at which line.
#![tactic(auto)]

use anyhow::anyhow;
use sheet::output::print_sheet;
use std::io::{Read, Write};

// One byte more than a sheet may have, so that a longer one is seen to be too long.
const ENOUGH: usize = 32_769;

fn run(rt: &HostRuntime) -> anyhow::Result<()> {
    let heap = rt.alloc();
    // with room for all that is read and a byte more, reading asks for no memory
    let mut sheet = Vec::with_capacity(heap, ENOUGH + 1)?;
    let mut out = vec![in heap; 0u8; 16_384]?;
    rt.stdin().take(ENOUGH as u64).read_to_end(&mut sheet)?;
    let Ok(length) = print_sheet(heap, sheet.as_slice(), &mut out)? else {
        return Err(anyhow!("no room for the answer"));
    };
    rt.stdout().write_all(&out[..length])?;
    Ok(())
}

fn main(rt: HostRuntime) -> anyhow::Result<()> {
    run(&rt)
}
