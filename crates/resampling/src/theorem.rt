// Statements about the definitions.
ghost use Rattle.resampling.specs.Examples.{Examples};

// The worked examples hold of the definitions that the contracts cite.
pub fn examples_hold() -> bool
    ensures { Examples }
{
    true
}
