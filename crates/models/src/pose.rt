// Poses on the grid.
ghost use Rattle.std.specs.Prelude.{◌≡◌};
ghost use Rattle.models.specs.Poses.{pose_kind, pose_coding, right, left};
ghost use Rattle.models.specs.Laws.{pose_exact};

use crate::state::{Coded, State};

// Where a pose looks: north is y - 1, east is x + 1, south is y + 1, west is x - 1.
#[derive(Clone, Copy)]
pub enum Heading {
    North = 0,
    East = 1,
    South = 2,
    West = 3,
}

// `Heading::ALL` in memory, for births, which do little else: a constant that is indexed is laid out anew on the stack at each use.
pub(crate) static HEADINGS: [Heading; 4] = Heading::ALL;

impl Heading {
    // Each heading at the place of its number.
    pub const ALL: [Heading; 4] = [Heading::North, Heading::East, Heading::South, Heading::West];

    // The turns stay two: a function of how far would need a definition beside `right` and `left`, which the rules name.
    pub(crate) fn turned_right(self) -> Heading
        ensures { result ≡ right self }
    {
        Self::ALL[(self as usize + 1) % 4]
    }

    pub(crate) fn turned_left(self) -> Heading
        ensures { result ≡ left self }
    {
        Self::ALL[(self as usize + 3) % 4]
    }
}

// A cell of the grid and a heading.
#[derive(Clone, Copy)]
pub struct Pose {
    pub x: u8,
    pub y: u8,
    pub heading: Heading,
}

impl State for Pose {
    ghost kind = { pose_kind };

    fn is_state(self) -> bool {
        self.x < 32 && self.y < 32
    }
}

impl Coded for Pose {
    ghost coding = { pose_coding };

    ghost exact = { pose_exact };

    fn code(self) -> Option<u32> {
        let cell = u32::from(self.x) + 32 * u32::from(self.y);
        self.is_state().then_some(cell + 1024 * self.heading as u32)
    }

    fn from_code(n: u32) -> Option<Pose> {
        (n < 4096).then(|| Pose {
            x: (n % 32) as u8,
            y: (n / 32 % 32) as u8,
            heading: Heading::ALL[(n / 1024) as usize],
        })
    }
}
