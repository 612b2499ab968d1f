// Reading one line.
ghost use Rattle.std.specs.Prelude.{◌≡◌};
ghost use Rattle.std.specs.Option.{option_map};
ghost use Rattle.fields.specs.Cuts.{fields_in};
ghost use Rattle.logs.specs.Lines.{only_letter, texts, arguments_of, line_by, line_of};

use crate::fault::LineFault;
use crate::line::{Arguments, Letter, Line, Program};
use fields::cut::cut;
use fields::number::read_field;

pub const LONGEST_LINE: usize = 100;

// The fields in which a line has its numbers; field 1 is the letter.
const FIRST_NUMBER: usize = 2;

const SECOND_NUMBER: usize = 3;

// The limits of the numbers in a line.
const ROW_LIMIT: u32 = 31;

const BITS_LIMIT: u32 = u32::MAX;

const SEED_LIMIT: u32 = u32::MAX;

const RECORD_LIMIT: u32 = u32::MAX;

const COUNT_LIMIT: u32 = u16::MAX as u32;

const COMMAND_LIMIT: u32 = u8::MAX as u32;

const READING_LIMIT: u32 = u8::MAX as u32;

const LAG_LIMIT: u32 = u16::MAX as u32;

const CODE_LIMIT: u32 = u16::MAX as u32;

const PARTICLE_LIMIT: u32 = u16::MAX as u32;

// The first field, if it is one letter that this program knows.
fn known_letter(program: Program, first: &[u8]) -> Option<Letter>
    ensures { result ≡ only_letter program first.now }
{
    let [letter] = first else {
        return None;
    };
    match (char::from(*letter), program) {
        ('M', Program::Locate) => Some(Letter::Map),
        ('G', Program::Locate) => Some(Letter::Seed),
        ('D', Program::Lift) => Some(Letter::Record),
        ('S', _) => Some(Letter::Start),
        ('A', _) => Some(Letter::Advance),
        ('W', _) => Some(Letter::Weigh),
        ('R', _) => Some(Letter::Resample),
        ('E', _) => Some(Letter::Share),
        ('P', _) => Some(Letter::Path),
        ('F', _) => Some(Letter::Finish),
        _ => None,
    }
}

impl<'a> Arguments<&'a [u8]> {
    // The fields after the letter's comma, if there is one.
    #[tactic(auto, using(fields::proofs::Cutting::fields_cut))]
    fn of(rest: Option<&'a [u8]>) -> Self
        ensures { texts result ≡ arguments_of (fields_in (option_map (λ x. x.now) rest.entry)) }
    {
        let Some(bytes) = rest else {
            return Arguments::Zero;
        };
        let (first, others) = cut(bytes, b',');
        let Some(others) = others else {
            return Arguments::One(first);
        };
        match cut(others, b',') {
            (second, None) => Arguments::Two(first, second),
            _ => Arguments::More,
        }
    }
}

// What a line of this letter says by the fields after it. A number within its limit fits its type, so no cast loses bits, and `try_from` would add a fault that cannot come.
fn line_by(letter: Letter, arguments: Arguments<&[u8]>) -> Result<Line, LineFault>
    ensures { result ≡ line_by letter (texts arguments.entry) }
{
    let line = match (letter, arguments) {
        (Letter::Map, Arguments::Two(row, bits)) => Line::Map {
            row: read_field(row, FIRST_NUMBER, ROW_LIMIT)? as u8,
            bits: read_field(bits, SECOND_NUMBER, BITS_LIMIT)?,
        },
        (Letter::Seed, Arguments::One(value)) => Line::Seed {
            value: read_field(value, FIRST_NUMBER, SEED_LIMIT)?,
        },
        (Letter::Record, Arguments::One(value)) => Line::Record {
            value: read_field(value, FIRST_NUMBER, RECORD_LIMIT)?,
        },
        (Letter::Start, Arguments::One(count)) => Line::Start {
            count: read_field(count, FIRST_NUMBER, COUNT_LIMIT)? as u16,
        },
        (Letter::Advance, Arguments::One(command)) => Line::Advance {
            command: read_field(command, FIRST_NUMBER, COMMAND_LIMIT)? as u8,
        },
        (Letter::Weigh, Arguments::One(reading)) => Line::Weigh {
            reading: read_field(reading, FIRST_NUMBER, READING_LIMIT)? as u8,
        },
        (Letter::Resample, Arguments::Zero) => Line::Resample,
        (Letter::Share, Arguments::One(code)) => Line::Share {
            lag: None,
            code: read_field(code, FIRST_NUMBER, CODE_LIMIT)? as u16,
        },
        (Letter::Share, Arguments::Two(lag, code)) => Line::Share {
            lag: Some(read_field(lag, FIRST_NUMBER, LAG_LIMIT)? as u16),
            code: read_field(code, SECOND_NUMBER, CODE_LIMIT)? as u16,
        },
        (Letter::Path, Arguments::One(particle)) => Line::Path {
            particle: read_field(particle, FIRST_NUMBER, PARTICLE_LIMIT)? as u16,
        },
        (Letter::Finish, Arguments::Zero) => Line::Finish,
        _ => return Err(LineFault::FieldCount),
    };
    Ok(line)
}

// What a line, without its line feed, says to a program.
#[tactic(auto, using(crate::proofs::Reading::reading))]
pub fn read_line(program: Program, bytes: &[u8]) -> Result<Line, LineFault>
    ensures { result ≡ line_of program bytes.now }
{
    if bytes.len() > LONGEST_LINE {
        return Err(LineFault::TooLong);
    }
    let (first, rest) = cut(bytes, b',');
    let letter = known_letter(program, first).ok_or(LineFault::UnknownLetter)?;
    line_by(letter, Arguments::of(rest))
}
