// Recording numbers, and drawing those that were recorded.
ghost use Rattle.std.specs.Prelude.{◌≡◌, Err};
ghost use Rattle.refusals.specs.declared.Refusal.TheVariants.{NoRoom};
ghost use Rattle.sources.specs.Recordings.{recording, nothing_recorded, record_reply, with_number, less_first};
ghost use Rattle.sources.specs.Rows.{recorded_supply};
ghost use Rattle.sources.specs.Supplies.{drawn, left};
ghost use Rattle.sources.specs.RowsLemmas.{row_lawful, words_part};

use crate::recorded::Recorded;
use crate::source::Source;
use refusals::Refusal;

impl Recorded {
    const ROOM: usize = 512;

    // A source in which nothing was recorded yet.
    pub fn new() -> Self
        ensures { recording result ≡ nothing_recorded }
    {
        Recorded {
            numbers: [0; 512],
            count: 0,
            place: 0,
        }
    }

    // How many numbers were ever recorded.
    pub fn recorded_count(&self) -> usize
        ensures { result ≡ (recording self.now).ever }
    {
        self.count
    }

    // One number more, after those still to come.
    pub fn record_number(&mut self, v: u32) -> Result<(), Refusal>
        ensures reply { result ≡ record_reply (recording self.old) }
        ensures holds { recording self.new ≡ with_number v (recording self.old) }
        ensures refused { result ≡ Err NoRoom → self.new ≡ self.old }
    {
        if self.count >= Self::ROOM {
            return Err(Refusal::NoRoom);
        }
        // read once: after a write to the numbers it would be read again, and each record would wait for the one before
        let at = self.count;
        self.numbers[at] = v;
        self.count = at + 1;
        Ok(())
    }

    // The numbers still to come.
    fn to_come(&self) -> &[u32]
        ensures { result.now ≡ (recording self.now).row }
    {
        &self.numbers[self.place..self.count]
    }
}

impl Source for Recorded {
    ghost supply = { λ s. recorded_supply (recording s).row };

    ghost recorded = { λ s. (recording s).ever };

    ghost lawful = { λ s. row_lawful _ (words_part s.place s.count s.numbers s.words) };

    fn can_draw(&self, n: u32) -> bool {
        n as usize <= self.to_come().len()
    }

    fn draw(&mut self) -> Result<u32, Refusal>
        ensures answer { result ≡ drawn (recorded_supply (recording self.old).row) }
        ensures rest { recorded_supply (recording self.new).row ≡ left (recorded_supply (recording self.old).row) }
        ensures same { (recording self.new).ever ≡ (recording self.old).ever }
        ensures holds { recording self.new ≡ less_first (recording self.old) }
    {
        let number = *self.to_come().first().ok_or(Refusal::SourceDry)?;
        self.place += 1;
        Ok(number)
    }
}
