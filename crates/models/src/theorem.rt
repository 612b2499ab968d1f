// Statements about the definitions.
ghost use Rattle.models.specs.Examples.{Examples};
ghost use Rattle.models.specs.Readings.{ExpectedIsWhatIsFreeAhead};

// The worked examples hold of the definitions that the contracts cite.
#[tactic(auto, unfolding(crate::specs::Grids::expected_reading))]
pub fn examples_hold() -> bool
    ensures { Examples }
{
    true
}

// On every map, the expected reading of a pose counts the free cells before the first that is a wall or outside.
pub fn expected_is_what_is_free_ahead() -> bool
    ensures { ExpectedIsWhatIsFreeAhead }
{
    true
}
