// Tables of the lift.
use crate::shown::Shown;
use crate::tables::{print_backs, print_births, print_codes};
use models::lift::Lift;
use models::lift_state::{LiftState, Mode};
use models::model::Model;
use std::io;

// the last number that lets a table arrive, and the first that does not
const ARRIVES: u32 = 3221225471;

const GOES_ON: u32 = 3221225472;

fn print_moves_of(rt: &impl Print, mode: Mode, command: u8) -> io::Result<()> {
    print!(rt; "moves {} {command}:", mode as u8)?;
    for counter in [0, 1, 2, 98, 99, 100] {
        let s = LiftState { mode, counter };
        let first = Shown(Lift.advance(s, command, ARRIVES));
        let second = Shown(Lift.advance(s, command, GOES_ON));
        print!(rt; " | {first} {second}")?;
    }
    println!(rt; "")
}

fn print_moves(rt: &impl Print) -> io::Result<()> {
    for mode in Mode::ALL {
        for command in 0..4 {
            print_moves_of(rt, mode, command)?;
        }
    }
    Ok(())
}

fn print_scores_of(rt: &impl Print, mode: Mode) -> io::Result<()> {
    print!(rt; "scores {}:", mode as u8)?;
    for (counter, reading) in [(99, 0), (99, 1), (99, 2), (99, 3), (100, 0)] {
        print!(rt;
            " {}",
            Shown(Lift.score(LiftState { mode, counter }, reading))
        )?;
    }
    println!(rt; "")
}

fn print_scores(rt: &impl Print) -> io::Result<()> {
    for mode in Mode::ALL {
        print_scores_of(rt, mode)?;
    }
    Ok(())
}

fn states() -> [LiftState; 7] {
    [
        (Mode::Down, 0),
        (Mode::Down, 99),
        (Mode::Down, 100),
        (Mode::Rising, 2),
        (Mode::Up, 0),
        (Mode::Lowering, 99),
        (Mode::Lowering, 255),
    ]
    .map(|(mode, counter)| LiftState { mode, counter })
}

pub(crate) fn print_all(rt: &impl Print) -> io::Result<()> {
    print_moves(rt)?;
    print_scores(rt)?;
    print_births(
        rt,
        &Lift,
        &[
            0, 1073741823, 1073741824, 2147483648, 3221225471, 3221225472, 4294967295,
        ],
    )?;
    print_codes(rt, &states())?;
    print_backs::<LiftState>(rt, &[0, 99, 100, 102, 200, 399, 400, 4294967295])
}
