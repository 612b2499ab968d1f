// What the lines of a log are.
ghost use Rattle.logs.specs.Forms.{LinesExact};
ghost use Rattle.logs.specs.Reasons.{FirstReason};

// Carries what the definition of a line is shown to mean.
pub fn lines_are_read_exactly_when_written() -> bool
    ensures exact { LinesExact }
    ensures first_reason { FirstReason }
{
    true
}
