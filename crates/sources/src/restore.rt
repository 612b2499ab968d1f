// A guard over the generator.
ghost use Rattle.std.specs.Prelude.{◌≡◌};
ghost use Rattle.sources.specs.Generators.{step};

use crate::generator::Generator;

// Puts the saved generator back at its end, on every way out.
pub struct Restore<'a> {
    pub generator: &'a mut Generator,
    pub saved: Generator,
}

impl<'a> Restore<'a> {
    // A guard that puts the generator back as it is now.
    pub fn over(generator: &'a mut Generator) -> Self
        ensures same { result.generator.ghost_name ≡ generator.entry.ghost_name }
        ensures kept { result.generator.now ≡ generator.old }
        ensures saved { result.saved ≡ generator.old }
    {
        let saved = *generator;
        Restore { generator, saved }
    }
}

impl Drop for Restore<'_> {
    fn drop(self)
        ensures { self.exit.0.now ≡ self.entry.saved }
    {
        let Restore { generator, saved } = self;
        *generator = saved;
    }
}

// The number that would be drawn next; the generator is as it was.
pub fn peek(generator: &mut Generator) -> u32
    ensures number { result ≡ step generator.old.value }
    ensures kept { generator.new ≡ generator.old }
{
    let guard = Restore::over(generator);
    guard.generator.next_number()
}
