// Reads a resampling exercise from the standard input and prints its worked answer.
#![tactic(auto)]

use exercise::report::report;
use fields::input::read_input;

fn main(rt: HostRuntime) -> anyhow::Result<()> {
    let heap = rt.alloc();
    let input = read_input(heap, rt.stdin())?;
    rt.print(report(heap, &input)?)?;
    Ok(())
}
