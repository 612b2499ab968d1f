// Numbers in a report.
ghost use Rattle.std.specs.Prelude.{Some};
ghost use Rattle.fields.specs.Written.{each_after_comma};

use std::fmt;

// Numbers that are written with a comma before each.
#[derive(Clone, Copy)]
pub struct AfterCommas<'a>(pub &'a [u32]);

impl fmt::Display for AfterCommas<'_> {
    ghost output = { λ x. Some (each_after_comma x.0.now) };

    fn fmt<W: fmt::Write>(&self, f: &mut fmt::Formatter<W>) -> fmt::Result {
        for number in self.0 {
            write!(f, ",{number}")?;
        }
        Ok(())
    }
}
