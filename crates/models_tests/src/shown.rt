// How the tables show an answer: a pose by x, y and the heading's letter, a refusal by ! and its number.
use models::lift_state::LiftState;
use models::pose::{Heading, Pose};
use refusals::Refusal;
use std::fmt;

// What the tables can show. A trait of its own, as the `Display` of an Option or of a type of another crate cannot be written here.
pub(crate) trait Show {
    fn show<W: fmt::Write>(&self, f: &mut fmt::Formatter<W>) -> fmt::Result;
}

// A value, as the tables show it.
#[derive(Drop)]
pub(crate) struct Shown<T>(pub(crate) T);

impl<T: Show> fmt::Display for Shown<T> {
    fn fmt<W: fmt::Write>(&self, f: &mut fmt::Formatter<W>) -> fmt::Result {
        self.0.show(f)
    }
}

impl Show for Pose {
    fn show<W: fmt::Write>(&self, f: &mut fmt::Formatter<W>) -> fmt::Result {
        let letter = match self.heading {
            Heading::North => 'N',
            Heading::East => 'E',
            Heading::South => 'S',
            Heading::West => 'W',
        };
        write!(f, "{} {} {letter}", self.x, self.y)
    }
}

impl Show for LiftState {
    fn show<W: fmt::Write>(&self, f: &mut fmt::Formatter<W>) -> fmt::Result {
        write!(f, "{} {}", self.mode as u8, self.counter)
    }
}

impl Show for u32 {
    fn show<W: fmt::Write>(&self, f: &mut fmt::Formatter<W>) -> fmt::Result {
        write!(f, "{self}")
    }
}

impl Show for u16 {
    fn show<W: fmt::Write>(&self, f: &mut fmt::Formatter<W>) -> fmt::Result {
        write!(f, "{self}")
    }
}

impl Show for () {
    fn show<W: fmt::Write>(&self, f: &mut fmt::Formatter<W>) -> fmt::Result {
        f.write_str("done")
    }
}

impl<T: Show> Show for Option<T> {
    fn show<W: fmt::Write>(&self, f: &mut fmt::Formatter<W>) -> fmt::Result {
        match self {
            Some(x) => x.show(f),
            None => f.write_str("none"),
        }
    }
}

impl<T: Show> Show for Result<T, Refusal> {
    fn show<W: fmt::Write>(&self, f: &mut fmt::Formatter<W>) -> fmt::Result {
        match self {
            Ok(x) => x.show(f),
            Err(refusal) => write!(f, "!{}", refusal.number()),
        }
    }
}
