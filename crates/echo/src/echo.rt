// A machine that replies with the numbers of its lines, so that a report shows how each line was read.
ghost use Rattle.std.specs.Prelude.{◌≡◌, ℕ};
ghost use Rattle.echo.specs.Echoes.{echoes, plus};

use crate::numbers::count_up;
use logs::line::Line;
use logs::machine::Machine;
use logs::reply::Reply;
use refusals::Refusal;

#[derive(Default, Drop)]
pub struct Echo {
    // the sum, modulo 2^32, of the numbers in lines that print nothing
    sum: u32,
}

impl Echo {
    fn add(&mut self, number: u32)
        ensures { self.new.sum ≡ plus self.old.sum number }
    {
        self.sum = self.sum.wrapping_add(number);
    }
}

impl Machine for Echo {
    ghost State = { ℕ };

    ghost state = { λ e. e.sum };

    ghost obeys = { echoes };

    // one arm for each kind of line, which is all that a machine decides by
    fn obey(&mut self, line: Line, row: &mut [u32]) -> Result<Option<Reply<usize>>, Refusal> {
        let reply = match line {
            Line::Map { row: y, bits } => {
                self.add(u32::from(y));
                self.add(bits);
                return Ok(None);
            }
            Line::Seed { value } | Line::Record { value } => {
                self.add(value);
                return Ok(None);
            }
            Line::Start { count } => Reply::Started(u32::from(count)),
            Line::Advance { command } => Reply::Advanced(u32::from(command)),
            Line::Weigh { reading } => Reply::Weighed(u32::from(reading)),
            Line::Resample => Reply::Resampled(self.sum),
            Line::Share { lag, code } => {
                let lag = lag.map_or(u32::MAX, u32::from);
                Reply::Shared((lag, u32::from(code)))
            }
            Line::Path { particle } => {
                let count = usize::from(particle);
                if count > row.len() {
                    return Err(Refusal::NoRoom);
                }
                count_up(&mut row[..count]);
                Reply::Path(count)
            }
            Line::Finish => Reply::Finished(self.sum),
        };
        Ok(Some(reply))
    }
}
