// What a cart on the grid should measure.
ghost use Rattle.std.specs.Prelude.{◌≡◌};
ghost use Rattle.models.specs.Grids.{expected_reading};

use crate::grid::Grid;
use crate::placed::Placed;

impl Grid {
    // How many cells ahead are free, before the first wall or the edge.
    pub(crate) fn expected_reading(&self, p: Placed) -> u8
        ensures { result ≡ expected_reading self.now.rows p.pose }
    {
        (0..31)
            .find(|d| self.reach(p, d + 1).is_none())
            .unwrap_or(31)
    }
}
