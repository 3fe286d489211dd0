// A tester: draws every recorded sheet of the folder that it runs in, and compares what is printed with the recorded text, byte by
// byte.
#![tactic(auto)]

use anyhow::anyhow;
use sheet::output::print_sheet;
use std::fs;

// How many sheets were planned, refused, and answered otherwise than recorded.
#[derive(Drop)]
struct Count {
    planned: u32,
    refused: u32,
    wrong: u32,
}

// What is printed of a sheet, in a lent buffer.
fn printed<'a>(rt: &HostRuntime, name: &str, out: &'a mut [u8]) -> anyhow::Result<&'a [u8]> {
    let path = format!(in rt.alloc(); "{name}.in")?;
    let sheet = fs::read(rt, path.as_str())?;
    let answer = print_sheet(rt.alloc(), sheet.as_slice(), out)?;
    let length = answer.map_err(|_| anyhow!("no room for the answer"))?;
    Ok(&out[..length])
}

// Tries one sheet; says so where its answer is not the recorded one.
fn try_sheet(
    rt: &HostRuntime,
    name: &str,
    out: &mut [u8],
    count: &mut Count,
) -> anyhow::Result<()> {
    let printed = printed(rt, name, out)?;
    let path = format!(in rt.alloc(); "{name}.out")?;
    let recorded = fs::read(rt, path.as_str())?;
    if printed != recorded.as_slice() {
        println!(rt; "{name}: another answer than recorded")?;
        count.wrong = count.wrong.saturating_add(1);
    } else if recorded.as_slice().starts_with(b"r") {
        count.refused = count.refused.saturating_add(1);
    } else {
        count.planned = count.planned.saturating_add(1);
    }
    Ok(())
}

// Tries all sheets, and sums up.
fn run(rt: &HostRuntime) -> anyhow::Result<()> {
    let names = fs::read_to_string(rt, "names.txt")?;
    let mut out = vec![in rt.alloc(); 0u8; 16_384]?;
    let mut count = Count {
        planned: 0,
        refused: 0,
        wrong: 0,
    };
    for name in names.as_str().lines() {
        try_sheet(rt, name, &mut out, &mut count)?;
    }
    let planned = count.planned;
    let refused = count.refused;
    let wrong = count.wrong;
    println!(rt; "{planned} sheets planned and {refused} refused as recorded, {wrong} otherwise")?;
    if wrong > 0 {
        return Err(anyhow!("not every answer is as recorded"));
    }
    Ok(())
}

fn main(rt: HostRuntime) -> anyhow::Result<()> {
    run(&rt)
}
