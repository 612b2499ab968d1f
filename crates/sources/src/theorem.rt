// Statements about the definitions.
ghost use Rattle.std.specs.Prelude.{◌≡◌, true};
ghost use Rattle.sources.specs.Examples.{Examples};

use crate::generator::Generator;

// The worked examples hold of the definitions that the contracts cite, and of the code.
pub fn examples_hold() -> bool
    ensures code { result ≡ true }
    ensures definitions { Examples }
{
    let mut generator = Generator::from_value(0);
    generator.next_number() == 1013904223 && generator.next_number() == 1196435762
}
