// Runs every case of the list through the call that its program makes, and compares the reports.
#![tactic(auto)]

mod difference;

use anyhow::anyhow;
use difference::first_difference;
use exercise::report::report;
use std::alloc::Global;
use std::fs;

// One line of the list: a program, a blank and the name of a pair of files.
fn outcome(rt: &HostRuntime, heap: Global, entry: &str) -> anyhow::Result<Option<String>> {
    let Some((program, name)) = entry.split_once(' ') else {
        return Err(anyhow!("a line of the list is not a program and a case"));
    };
    let input = fs::read(rt, format!(in heap; "{name}.input")?)?;
    let wanted = fs::read(rt, format!(in heap; "{name}.report")?)?;
    // one arm for each program: a table of calls would say the same in more words
    let got = match program {
        "resample" => report(heap, &input)?,
        _ => return Err(anyhow!("a line of the list names no program")),
    };
    let Some(line) = first_difference(got.as_bytes(), &wanted) else {
        return Ok(None);
    };
    Ok(Some(format!(in heap; "{name}: line {line} differs")?))
}

fn main(rt: HostRuntime) -> anyhow::Result<()> {
    let heap = rt.alloc();
    let list = fs::read_to_string(&rt, "list.txt")?;
    let mut agree = 0u64;
    let mut differ = 0u64;
    for entry in list.lines() {
        match outcome(&rt, heap, entry)? {
            None => agree = agree.saturating_add(1),
            Some(text) => {
                differ = differ.saturating_add(1);
                println!(rt; "{text}")?;
            }
        }
    }
    println!(rt; "{agree} agree, {differ} differ")?;
    Ok(())
}
