// The report of a whole log, line by line, to any writer.
ghost use Rattle.std.specs.Prelude.{◌≡◌, length, take, OnOk};
ghost use Rattle.std.specs.Fmt.{WritesOnOk};
ghost use Rattle.logs.specs.Reports.{viewed, map_reply, InReply, InRow, entry_text, codes_of};
ghost use Rattle.logs.specs.Runs.{served, whole_report, whole_state};

use crate::entry::Entry;
use crate::fault::RunFault;
use crate::line::Program;
use crate::lines::Lines;
use crate::machine::Machine;
use crate::read::read_line;
use crate::reply::Reply;
pub use fields::input::LONGEST_INPUT;
use fields::written::AfterCommas;
use std::fmt;

// One line read and obeyed.
fn serve<M: Machine>(
    program: Program,
    machine: &mut M,
    row: &mut [u32],
    line: &[u8],
) -> Result<Option<Reply<usize>>, RunFault>
    ensures after { M.Machine.state machine.new ≡ (served (M.Machine.obeys (length row.old)) program (M.Machine.state machine.old) line.now).0 }
    ensures reply { viewed (λ n. take n row.new) result ≡ (served (M.Machine.obeys (length row.old)) program (M.Machine.state machine.old) line.now).1 }
    ensures within { InRow (length row.new) result }
{
    let order = read_line(program, line)?;
    Ok(machine.obey(order, row)?)
}

// The reply with the codes that its count tells of.
fn with_codes(reply: Reply<usize>, row: &[u32]) -> Reply<AfterCommas<'_>>
    requires { InReply (length row.now) reply }
    ensures { map_reply codes_of result ≡ map_reply (λ n. take n row.now) reply }
{
    reply.map(|count| AfterCommas(&row[..count]))
}

fn write_entry<W: fmt::Write>(
    f: &mut fmt::Formatter<W>,
    line: u32,
    outcome: Result<Option<Reply<usize>>, RunFault>,
    row: &[u32],
) -> fmt::Result
    requires { InRow (length row.now) outcome }
    ensures { WritesOnOk W.Write.write_str_gives f.old result (entry_text line (viewed (λ n. take n row.now) outcome)) f.new }
{
    let result = outcome.map(|told| told.map(|reply| with_codes(reply, row)));
    f.write(Entry { line, result })
}

// Runs a log against a machine. Where every write is accepted, the writer took the whole report, and the machine obeyed every line.
pub fn write_report<M: Machine, W: fmt::Write>(
    program: Program,
    machine: &mut M,
    row: &mut [u32],
    input: &[u8],
    f: &mut fmt::Formatter<W>,
) -> fmt::Result
    ensures prints { WritesOnOk W.Write.write_str_gives f.old result (whole_report (M.Machine.obeys (length row.old)) program (M.Machine.state machine.old) input.now) f.new }
    ensures after { OnOk result (M.Machine.state machine.new ≡ whole_state (M.Machine.obeys (length row.old)) program (M.Machine.state machine.old) input.now) }
{
    if input.len() > LONGEST_INPUT {
        return write_entry(f, 0, Err(RunFault::InputTooLong), row);
    }
    for (number, line) in (1..).zip(Lines(input)) {
        let result = serve(program, machine, row, line);
        write_entry(f, number, result, row)?;
    }
    Ok(())
}
