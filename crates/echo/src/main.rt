// Reads a log and prints what the echo replies to it, first as a log of locate, then as one of lift.
#![tactic(auto)]

mod echo;
mod numbers;

use echo::Echo;
use fields::input::read_input;
use logs::line::Program;
use logs::run::write_report;
use std::fmt;
use std::io::{Stdout, Write};

// The standard output as a `fmt::Write`, which a formatter asks for; the library's streams are no such writer.
#[derive(Drop)]
struct Out {
    out: Stdout,
}

impl fmt::Write for Out {
    fn write_str(&mut self, s: &str) -> fmt::Result {
        self.out.write_all(s.as_bytes()).map_err(|_| fmt::Error)
    }
}

fn main(rt: HostRuntime) -> anyhow::Result<()> {
    let heap = rt.alloc();
    let input = read_input(heap, rt.stdin())?;
    let mut row = vec![in heap; 0u32; 8]?;
    let mut f = fmt::Formatter::new(Out { out: rt.stdout() });
    for program in [Program::Locate, Program::Lift] {
        write_report(program, &mut Echo::default(), &mut row, &input, &mut f)?;
    }
    Ok(())
}
