// The generator.
ghost use Rattle.std.specs.Prelude.{◌≡◌, ℕ};
ghost use Rattle.sources.specs.Generators.{step, generator_supply};
ghost use Rattle.sources.specs.Supplies.{drawn, left};
ghost use Rattle.sources.specs.Steps.{generator_lawful};

use crate::source::Source;
use refusals::Refusal;

// A linear congruential generator, which never runs out: a draw takes its value v to 1,664,525 × v + 1,013,904,223 modulo 2^32, and answers that.
#[derive(Clone, Copy, PartialEq, Eq, Debug)]
pub struct Generator {
    value: u32,
}

impl Generator {
    const FACTOR: u32 = 1664525;

    const ADDEND: u32 = 1013904223;

    // The generator that holds the value; the first number drawn is the step of it.
    pub fn from_value(value: u32) -> Self
        ensures { result.value ≡ value }
    {
        Generator { value }
    }

    // The value held: the number drawn last.
    pub fn value(&self) -> u32
        ensures { result ≡ self.now.value }
    {
        self.value
    }

    // Draws the next number, which is always there.
    pub fn next_number(&mut self) -> u32
        ensures number { result ≡ step self.old.value }
        ensures held { self.new.value ≡ result }
    {
        let product = self.value.wrapping_mul(Self::FACTOR);
        let number = product.wrapping_add(Self::ADDEND);
        *self = Self::from_value(number);
        number
    }
}

impl Source for Generator {
    ghost supply = { λ g. generator_supply g.value };

    ghost recorded = { λ _. 0 };

    ghost lawful = { λ s. generator_lawful s.value };

    fn can_draw(&self, n: u32) -> bool {
        true
    }

    // A method's clauses stand in the place of all of its trait's: `same` says that `recorded` is 0 before and after.
    fn draw(&mut self) -> Result<u32, Refusal>
        ensures answer { result ≡ drawn (generator_supply self.old.value) }
        ensures rest { generator_supply self.new.value ≡ left (generator_supply self.old.value) }
        ensures same { ◌≡◌ {A = ℕ} 0 0 }
        ensures held { self.new.value ≡ step self.old.value }
    {
        Ok(self.next_number())
    }
}
