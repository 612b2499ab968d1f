// The grid: a cart on a map of 32 by 32 cells.
ghost use Rattle.std.specs.Prelude.{◌≡◌, replicate};
ghost use Rattle.models.specs.Grids.{wall, row_reply, rows_after, reach, single_forward, overrun_forward, forward, command_reply, grid_meaning};
ghost use Rattle.models.specs.Laws.{grid_lawful};

use crate::model::Model as FilterModel;
use crate::placed::Placed;
use crate::pose::{HEADINGS, Pose};
use crate::state::State;
use refusals::Refusal;

// What a cart can be told to do.
#[derive(Clone, Copy)]
pub(crate) enum Command {
    Stay,
    Forward,
    TurnRight,
    TurnLeft,
}

// The numbers stand here, as in the lift, and not in the enum: no code is made of them, as of headings and modes, so a list of all cases beside their numbers would say more than this table.
impl TryFrom<u8> for Command {
    type Error = Refusal;

    ghost try_from_gives = { λ number reply. reply ≡ command_reply number };

    fn try_from(number: u8) -> Result<Self, Refusal> {
        match number {
            0 => Ok(Command::Stay),
            1 => Ok(Command::Forward),
            2 => Ok(Command::TurnRight),
            3 => Ok(Command::TurnLeft),
            _ => Err(Refusal::Unknown),
        }
    }
}

// The map: bit x of row y is set where there is a wall, as a log gives its rows.
#[derive(Clone, Copy)]
pub struct Grid {
    rows: [u32; 32],
}

impl Grid {
    // A map with no wall.
    pub fn empty() -> Self
        ensures { result.rows ≡ replicate 32 0 }
    {
        Grid { rows: [0; 32] }
    }

    // Sets row y of the map.
    pub fn set_row(&mut self, y: u8, bits: u32) -> Result<(), Refusal>
        ensures reply { result ≡ row_reply y }
        ensures rows { self.new.rows ≡ rows_after self.old.rows y bits }
    {
        if y >= 32 {
            return Err(Refusal::OutOfRange);
        }
        self.rows[usize::from(y)] = bits;
        Ok(())
    }

    // The pose is in a wall.
    pub(crate) fn wall(&self, p: Placed) -> bool
        ensures { result ≡ wall self.now.rows p.pose.x p.pose.y }
    {
        (self.rows[usize::from(p.pose.y)] >> p.pose.x) % 2 == 1
    }

    // The pose d cells ahead, if that cell is inside and free.
    pub(crate) fn reach(&self, p: Placed, d: u8) -> Option<Pose>
        ensures { result ≡ reach self.now.rows p.pose d }
    {
        let q = p.ahead(d)?;
        (!self.wall(q)).then_some(q.pose)
    }

    fn single_forward(&self, p: Placed) -> Pose
        ensures { result ≡ single_forward self.now.rows p.pose }
    {
        self.reach(p, 1).unwrap_or(p.pose)
    }

    fn overrun_forward(&self, p: Placed) -> Pose
        ensures { result ≡ overrun_forward self.now.rows p.pose }
    {
        self.reach(p, 2).unwrap_or_else(|| self.single_forward(p))
    }

    fn forward(&self, p: Placed, number: u32) -> Pose
        ensures { result ≡ forward self.now.rows p.pose number }
    {
        if number >> 29 == 7 {
            self.overrun_forward(p)
        } else {
            self.single_forward(p)
        }
    }
}

impl FilterModel for Grid {
    type State = Pose;

    ghost meaning = { λ g. grid_meaning g.rows };

    ghost lawful = { λ g. grid_lawful g.rows };

    fn knows_command(&self, command: u8) -> bool {
        Command::try_from(command).is_ok()
    }

    fn knows_reading(&self, reading: u8) -> bool {
        reading < 32
    }

    fn birth(&self, number: u32) -> Pose {
        Pose {
            x: (number >> 27) as u8,
            y: ((number >> 22) % 32) as u8,
            heading: HEADINGS[((number >> 20) % 4) as usize],
        }
    }

    // For loops over rows: a call of its own passes the pose through memory, which costs more than the move.
    #[inline(always)]
    fn advance(&self, state: Pose, command: u8, number: u32) -> Result<Pose, Refusal> {
        let p = Placed::try_from(state)?;
        Ok(match Command::try_from(command)? {
            Command::Stay => state,
            Command::Forward => self.forward(p, number),
            Command::TurnRight => Pose {
                heading: state.heading.turned_right(),
                ..state
            },
            Command::TurnLeft => Pose {
                heading: state.heading.turned_left(),
                ..state
            },
        })
    }

    fn score(&self, state: Pose, reading: u8) -> Result<u16, Refusal> {
        let p = Placed::try_from(state)?;
        if !self.knows_reading(reading) {
            return Err(Refusal::Unknown);
        }
        if self.wall(p) {
            return Ok(0);
        }
        Ok(match self.expected_reading(p).abs_diff(reading) {
            0 => 1000,
            1 => 400,
            2 => 100,
            3 => 20,
            _ => 1,
        })
    }
}
