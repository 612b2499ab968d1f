// Examples that are run.
use crate::births::draw_births;
use models::floor::Floor;
use models::grid::Grid;
use models::pose::{Heading, Pose};
use models::slip::Slip;
use models::state::Coded;
use sources::Recorded;
use std::test::Fail;

#[test]
fn last_and_first_birth(rt: HostRuntime) -> Result<(), Fail> {
    let slip = Slip {
        chance: 16,
        below: Grid::empty(),
    };
    let cart = Floor {
        least: 1,
        below: slip,
    };
    let mut source = Recorded::new();
    source.record_number(4294967295)?;
    source.record_number(0)?;
    let nowhere = Pose {
        x: 32,
        y: 32,
        heading: Heading::East,
    };
    let mut row = [nowhere; 2];
    assert_eq!(rt; draw_births(&cart, &mut source, &mut row)?, 2);
    assert_eq!(rt; row[0].code(), Some(4095));
    assert_eq!(rt; row[1].code(), Some(0));
    Ok(())
}
