// Poses on the map.
ghost use Rattle.std.specs.Prelude.{◌≡◌, true};
ghost use Rattle.std.specs.Option.{option_map};
ghost use Rattle.std.specs.Result.{result_map_both};
ghost use Rattle.models.specs.Kinds.{state_reply};
ghost use Rattle.models.specs.Poses.{on_grid, pose_kind};
ghost use Rattle.models.specs.Grids.{ahead};

use crate::pose::{Heading, Pose};
use crate::state::ensure_state;
use refusals::Refusal;

// A pose whose cell is on the map.
#[derive(Clone, Copy)]
pub(crate) struct Placed {
    pub(crate) pose: Pose,
    ghost on_map: { on_grid pose ≡ true },
}

impl TryFrom<Pose> for Placed {
    type Error = Refusal;

    ghost try_from_gives = { λ pose reply.
        result_map_both (λ p. p.pose) (λ e. e) reply ≡ state_reply pose_kind pose };

    fn try_from(pose: Pose) -> Result<Self, Refusal> {
        Ok(Placed {
            pose: ensure_state(pose)?,
        })
    }
}

impl Placed {
    // The pose d cells ahead, or none where that is outside.
    pub(crate) fn ahead(self, d: u8) -> Option<Placed>
        ensures { option_map (λ p. p.pose) result ≡ ahead self.pose d }
    {
        let p = self.pose;
        let pose = match p.heading {
            Heading::North if d <= p.y => Pose { y: p.y - d, ..p },
            Heading::East if d < 32 - p.x => Pose { x: p.x + d, ..p },
            Heading::South if d < 32 - p.y => Pose { y: p.y + d, ..p },
            Heading::West if d <= p.x => Pose { x: p.x - d, ..p },
            _ => return None,
        };
        Some(Placed { pose })
    }
}
