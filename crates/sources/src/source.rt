// What gives numbers from 0 to 2^32 - 1.
ghost use Rattle.std.specs.Prelude.{◌≡◌, ℕ};
ghost use Rattle.sources.specs.Supplies.{Supply, Lawful, drawn, left};

use refusals::Refusal;

// A source of numbers, with its supply for a meaning.
pub trait Source {
    ghost supply: { Self → Supply };

    // How many numbers were ever recorded, which no draw changes; 0 where none are.
    ghost recorded: { Self → ℕ };

    // Whether n numbers can be drawn.
    fn can_draw(&self, n: u32) -> bool
        ensures { result ≡ (supply self.now).can n };

    // The next number, which is then no more to come.
    fn draw(&mut self) -> Result<u32, Refusal>
        ensures answer { result ≡ drawn (supply self.old) }
        ensures rest { supply self.new ≡ left (supply self.old) }
        ensures same { recorded self.new ≡ recorded self.old };

    ghost lawful: { (s : Self) → Lawful (supply s) };
}
