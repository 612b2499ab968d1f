// Tables of the grid.
use crate::shown::Shown;
use crate::tables::{print_backs, print_births, print_codes};
use models::grid::Grid;
use models::model::Model;
use models::pose::{Heading, Pose};
use std::io;

// the last number of a single forward, and the first of an overrun
const SINGLE: u32 = 3758096383;

const OVERRUN: u32 = 3758096384;

fn set_row(rt: &impl Print, grid: &mut Grid, y: u8, bits: u32) -> io::Result<()> {
    let reply = Shown(grid.set_row(y, bits));
    println!(rt; "row {y} {bits}: {reply}")
}

fn print_forward(rt: &impl Print, grid: &Grid, p: Pose) -> io::Result<()> {
    let single = Shown(grid.advance(p, 1, SINGLE));
    let overrun = Shown(grid.advance(p, 1, OVERRUN));
    println!(rt; "forward {}: {single} | {overrun}", Shown(p))
}

fn print_forwards(rt: &impl Print, grid: &Grid) -> io::Result<()> {
    for (x, y, heading) in [
        // both cells ahead are free
        (16, 16, Heading::North),
        (16, 16, Heading::East),
        (16, 16, Heading::South),
        (16, 16, Heading::West),
        // the second is a wall
        (10, 10, Heading::North),
        (10, 10, Heading::East),
        (10, 9, Heading::South),
        (11, 10, Heading::West),
        // the first is a wall
        (10, 9, Heading::North),
        (11, 10, Heading::East),
        (10, 10, Heading::South),
        (10, 10, Heading::West),
        // both are walls
        (25, 26, Heading::North),
        (20, 20, Heading::East),
        (25, 23, Heading::South),
        (23, 20, Heading::West),
        // the second is the last inside
        (5, 2, Heading::North),
        (29, 5, Heading::East),
        (5, 29, Heading::South),
        (2, 5, Heading::West),
        // the first is the last inside
        (5, 1, Heading::North),
        (30, 5, Heading::East),
        (5, 30, Heading::South),
        (1, 5, Heading::West),
        // the first is outside
        (7, 0, Heading::North),
        (31, 5, Heading::East),
        (7, 31, Heading::South),
        (0, 3, Heading::West),
        // the first is a wall and the second outside
        (0, 1, Heading::North),
        (30, 0, Heading::East),
        (13, 30, Heading::South),
        (1, 0, Heading::West),
        // the pose itself is in a wall
        (12, 10, Heading::East),
    ] {
        print_forward(rt, grid, Pose { x, y, heading })?;
    }
    Ok(())
}

fn print_turn(rt: &impl Print, grid: &Grid, p: Pose) -> io::Result<()> {
    let stay = Shown(grid.advance(p, 0, OVERRUN));
    let right = Shown(grid.advance(p, 2, OVERRUN));
    let left = Shown(grid.advance(p, 3, OVERRUN));
    let unknown = Shown(grid.advance(p, 4, OVERRUN));
    let last = Shown(grid.advance(p, 255, OVERRUN));
    println!(rt;
        "turn {}: {stay} | {right} | {left} | {unknown} | {last}",
        Shown(p)
    )
}

fn print_turns(rt: &impl Print, grid: &Grid) -> io::Result<()> {
    for (x, y, heading) in [
        (3, 4, Heading::North),
        (3, 4, Heading::East),
        (3, 4, Heading::South),
        (3, 4, Heading::West),
        (31, 31, Heading::North),
        // no states
        (32, 0, Heading::North),
        (0, 32, Heading::North),
        (255, 255, Heading::West),
    ] {
        print_turn(rt, grid, Pose { x, y, heading })?;
    }
    Ok(())
}

fn print_scores_at(rt: &impl Print, grid: &Grid, p: Pose) -> io::Result<()> {
    print!(rt; "scores {}:", Shown(p))?;
    for reading in [0, 1, 2, 3, 4, 5, 6, 27, 28, 29, 30, 31, 32, 255] {
        print!(rt; " {}", Shown(grid.score(p, reading)))?;
    }
    println!(rt; "")
}

fn print_scores(rt: &impl Print, grid: &Grid) -> io::Result<()> {
    for (x, y, heading) in [
        (10, 10, Heading::North),
        (10, 10, Heading::East),
        (10, 10, Heading::South),
        (10, 10, Heading::West),
        (16, 31, Heading::North),
        (0, 3, Heading::East),
        (16, 0, Heading::South),
        (31, 16, Heading::West),
        (13, 0, Heading::South),
        (5, 29, Heading::South),
        (5, 3, Heading::North),
        (29, 0, Heading::East),
        (31, 5, Heading::East),
        // in a wall
        (12, 10, Heading::East),
        (31, 0, Heading::South),
        // no states
        (32, 0, Heading::North),
        (0, 32, Heading::North),
    ] {
        print_scores_at(rt, grid, Pose { x, y, heading })?;
    }
    Ok(())
}

fn poses() -> [Pose; 9] {
    [
        (0, 0, Heading::North),
        (31, 0, Heading::North),
        (0, 31, Heading::North),
        (0, 0, Heading::East),
        (0, 0, Heading::West),
        (1, 2, Heading::West),
        (31, 31, Heading::West),
        (32, 0, Heading::North),
        (0, 32, Heading::North),
    ]
    .map(|(x, y, heading)| Pose { x, y, heading })
}

pub(crate) fn print_all(rt: &impl Print) -> io::Result<()> {
    let mut grid = Grid::empty();
    // walls at both ends of row 0, around 10 10, and two in a row next to 20 20 and 25 26
    for (y, bits) in [
        (0, 2147483649),
        (8, 1024),
        (10, 4294967295),
        (10, 4608),
        (11, 1024),
        (20, 6291456),
        (24, 33554432),
        (25, 33554432),
        (31, 8192),
        (32, 4294967295),
        (255, 4294967295),
    ] {
        set_row(rt, &mut grid, y, bits)?;
    }
    print_forwards(rt, &grid)?;
    print_turns(rt, &grid)?;
    print_scores(rt, &grid)?;
    print_births(
        rt,
        &grid,
        &[
            0, 1048575, 1048576, 4194303, 4194304, 134217727, 134217728, 2147483648, 4294967295,
        ],
    )?;
    print_codes(rt, &poses())?;
    print_backs::<Pose>(rt, &[0, 31, 32, 1023, 1024, 3137, 4095, 4096, 4294967295])
}
