// States of the lift.
ghost use Rattle.std.specs.Prelude.{◌≡◌};
ghost use Rattle.models.specs.LiftStates.{lift_kind, lift_coding, lift_state};
ghost use Rattle.models.specs.Laws.{lift_exact};

use crate::state::{Coded, State};

// What the lift's table does.
#[derive(Clone, Copy)]
pub enum Mode {
    Down = 0,
    Rising = 1,
    Up = 2,
    Lowering = 3,
}

// `Mode::ALL` in memory, as of headings.
pub(crate) static MODES: [Mode; 4] = Mode::ALL;

impl Mode {
    // Each mode at the place of its number.
    pub const ALL: [Mode; 4] = [Mode::Down, Mode::Rising, Mode::Up, Mode::Lowering];
}

// A mode, and how many moves it has lasted, up to 99.
#[derive(Clone, Copy)]
pub struct LiftState {
    pub mode: Mode,
    pub counter: u8,
}

impl LiftState {
    // The mode, with no move in it yet.
    pub(crate) fn begun(mode: Mode) -> Self
        ensures { result ≡ lift_state mode 0 }
    {
        LiftState { mode, counter: 0 }
    }
}

impl State for LiftState {
    ghost kind = { lift_kind };

    fn is_state(self) -> bool {
        self.counter < 100
    }
}

impl Coded for LiftState {
    ghost coding = { lift_coding };

    ghost exact = { lift_exact };

    fn code(self) -> Option<u32> {
        self.is_state()
            .then_some(100 * self.mode as u32 + u32::from(self.counter))
    }

    fn from_code(n: u32) -> Option<LiftState> {
        (n < 400).then(|| LiftState {
            mode: Mode::ALL[(n / 100) as usize],
            counter: (n % 100) as u8,
        })
    }
}
