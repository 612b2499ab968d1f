// The lift: a table that is raised and lowered.
ghost use Rattle.std.specs.Prelude.{◌≡◌};
ghost use Rattle.models.specs.Lifts.{run_on, command_reply, reading_reply, lift_meaning};
ghost use Rattle.models.specs.Laws.{lift_lawful};

use crate::lift_state::{LiftState, MODES, Mode};
use crate::model::Model as FilterModel;
use crate::state::{State, ensure_state};
use refusals::Refusal;

// What a lift can be told to do.
#[derive(Clone, Copy)]
pub(crate) enum Command {
    GoOn,
    Raise,
    Lower,
}

impl TryFrom<u8> for Command {
    type Error = Refusal;

    ghost try_from_gives = { λ number reply. reply ≡ command_reply number };

    fn try_from(number: u8) -> Result<Self, Refusal> {
        match number {
            0 => Ok(Command::GoOn),
            1 => Ok(Command::Raise),
            2 => Ok(Command::Lower),
            _ => Err(Refusal::Unknown),
        }
    }
}

// What a lift's table can be seen to do. Each reading is named for the modes in which it is likeliest.
#[derive(Clone, Copy)]
pub(crate) enum Reading {
    Rests,
    Lowers,
    Rises,
}

impl TryFrom<u8> for Reading {
    type Error = Refusal;

    ghost try_from_gives = { λ number reply. reply ≡ reading_reply number };

    fn try_from(number: u8) -> Result<Self, Refusal> {
        match number {
            0 => Ok(Reading::Rests),
            1 => Ok(Reading::Lowers),
            2 => Ok(Reading::Rises),
            _ => Err(Refusal::Unknown),
        }
    }
}

// The model of the lift, which has nothing to set.
#[derive(Clone, Copy)]
pub struct Lift;

impl LiftState {
    // The lift goes on with what it does.
    fn run_on(self, number: u32) -> Self
        ensures { result ≡ run_on self.mode self.counter number }
    {
        let arrives = self.counter >= 2 && number >> 28 < 12;
        match self.mode {
            Mode::Rising if arrives => LiftState::begun(Mode::Up),
            Mode::Lowering if arrives => LiftState::begun(Mode::Down),
            _ => LiftState {
                counter: self.counter.saturating_add(1).min(99),
                ..self
            },
        }
    }
}

impl FilterModel for Lift {
    type State = LiftState;

    ghost meaning = { λ _. lift_meaning };

    ghost lawful = { λ _. lift_lawful };

    fn knows_command(&self, command: u8) -> bool {
        Command::try_from(command).is_ok()
    }

    fn knows_reading(&self, reading: u8) -> bool {
        Reading::try_from(reading).is_ok()
    }

    fn birth(&self, number: u32) -> LiftState {
        LiftState::begun(MODES[(number >> 30) as usize])
    }

    fn advance(&self, state: LiftState, command: u8, number: u32) -> Result<LiftState, Refusal> {
        let state = ensure_state(state)?;
        Ok(match (Command::try_from(command)?, state.mode) {
            (Command::Raise, Mode::Down | Mode::Lowering) => LiftState::begun(Mode::Rising),
            (Command::Lower, Mode::Rising | Mode::Up) => LiftState::begun(Mode::Lowering),
            _ => state.run_on(number),
        })
    }

    fn score(&self, state: LiftState, reading: u8) -> Result<u16, Refusal> {
        let state = ensure_state(state)?;
        let [rests, lowers, rises] = match state.mode {
            Mode::Down => [90, 9, 1],
            Mode::Rising => [1, 19, 80],
            Mode::Up => [80, 19, 1],
            Mode::Lowering => [9, 81, 10],
        };
        Ok(match Reading::try_from(reading)? {
            Reading::Rests => rests,
            Reading::Lowers => lowers,
            Reading::Rises => rises,
        })
    }
}
