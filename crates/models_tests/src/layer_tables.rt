// Tables of the layers, and of layers over layers.
use crate::shown::Shown;
use models::floor::Floor;
use models::grid::Grid;
use models::lift::Lift;
use models::model::Model;
use models::pose::{Heading, Pose};
use models::slip::Slip;
use models::state::Coded;
use refusals::Refusal;
use std::io;

// The code of the state to which a move leads from the state with this code, if there is one.
fn code_after<M: Model>(
    model: &M,
    from: u32,
    command: u8,
    number: u32,
) -> Result<Option<u32>, Refusal>
where
    M::State: Coded,
{
    let Some(state) = M::State::from_code(from) else {
        return Ok(None);
    };
    Ok(model.advance(state, command, number)?.code())
}

// The score of the reading in the state with this code, if there is one.
fn score_at<M: Model>(model: &M, at: u32, reading: u8) -> Result<Option<u16>, Refusal>
where
    M::State: Coded,
{
    let Some(state) = M::State::from_code(at) else {
        return Ok(None);
    };
    model.score(state, reading).map(Some)
}

// From code 1024, at the empty map's corner and heading east, under the command.
fn print_slip(rt: &impl Print, chance: u8, command: u8, number: u32) -> io::Result<()> {
    let model = Slip {
        chance,
        below: Grid::empty(),
    };
    let after = Shown(code_after(&model, 1024, command, number));
    println!(rt; "slip {chance} {command} {number}: {after}")
}

fn print_slips(rt: &impl Print) -> io::Result<()> {
    for (chance, command, number) in [
        (16, 1, 0),
        (16, 1, 268435455),
        (16, 1, 268435456),
        (16, 1, 3758096384),
        // the bits that are left are those of an overrun
        (0, 1, 14680063),
        (0, 1, 14680064),
        (0, 1, 16777215),
        (0, 1, 16777216),
        (255, 1, 4278190079),
        (255, 1, 4278190080),
        (255, 2, 4278190079),
        (255, 2, 4278190080),
        (255, 4, 0),
        (0, 4, 0),
    ] {
        print_slip(rt, chance, command, number)?;
    }
    Ok(())
}

fn print_slips_twice(rt: &impl Print) -> io::Result<()> {
    let model = Slip {
        chance: 16,
        below: Slip {
            chance: 16,
            below: Grid::empty(),
        },
    };
    for number in [268435455, 268435456, 269484031, 269484032, 269541376] {
        let after = Shown(code_after(&model, 1024, 1, number));
        println!(rt; "slip twice {number}: {after}")?;
    }
    Ok(())
}

// From code 102 of the lift, under no command.
fn print_slips_of_lift(rt: &impl Print) -> io::Result<()> {
    let model = Floor {
        least: 10,
        below: Slip {
            chance: 1,
            below: Lift,
        },
    };
    for number in [16777215, 16777216, 29360127, 29360128] {
        let after = Shown(code_after(&model, 102, 0, number));
        println!(rt; "slip of lift {number}: {after}")?;
    }
    for reading in [0, 1, 2, 3] {
        let score = Shown(score_at(&model, 102, reading));
        println!(rt; "floor of lift {reading}: {score}")?;
    }
    let born = Shown(model.birth(4294967295).code());
    println!(rt; "birth of lift: {born}")
}

// At code 0, in a wall, and at code 1, in the open with nothing ahead.
fn print_floor(rt: &impl Print, least: u16) -> io::Result<()> {
    let mut grid = Grid::empty();
    let _ = grid.set_row(0, 1);
    let model = Floor { least, below: grid };
    let wall = Shown(score_at(&model, 0, 0));
    let exact = Shown(score_at(&model, 1, 0));
    let third = Shown(score_at(&model, 1, 3));
    let far = Shown(score_at(&model, 1, 31));
    let unknown = Shown(score_at(&model, 1, 32));
    println!(rt; "floor {least}: {wall} {exact} {third} {far} {unknown}")?;
    let born = Shown(model.birth(4294967295).code());
    let after = Shown(code_after(&model, 1024, 1, 4294967295));
    let refused = Shown(code_after(&model, 1024, 4, 0));
    println!(rt; "floor {least}: {born} {after} {refused}")
}

fn print_floors(rt: &impl Print) -> io::Result<()> {
    for least in [0, 1, 20, 21, 1000, 65535] {
        print_floor(rt, least)?;
    }
    Ok(())
}

// A value that is no state is refused also where the slip would leave it.
fn print_no_state(rt: &impl Print) -> io::Result<()> {
    let model = Floor {
        least: 1,
        below: Slip {
            chance: 255,
            below: Grid::empty(),
        },
    };
    let p = Pose {
        x: 32,
        y: 0,
        heading: Heading::East,
    };
    let moved = Shown(model.advance(p, 0, 0));
    let scored = Shown(model.score(p, 0));
    println!(rt; "no state: {moved} {scored}")
}

pub(crate) fn print_all(rt: &impl Print) -> io::Result<()> {
    print_slips(rt)?;
    print_slips_twice(rt)?;
    print_slips_of_lift(rt)?;
    print_floors(rt)?;
    print_no_state(rt)
}
