// Tables that each model or each kind of state has.
use crate::shown::{Show, Shown};
use models::model::Model;
use models::state::Coded;
use std::io;

pub(crate) fn print_births<M: Model>(rt: &impl Print, model: &M, numbers: &[u32]) -> io::Result<()>
where
    M::State: Show,
{
    for number in numbers {
        println!(rt; "birth {number}: {}", Shown(model.birth(*number)))?;
    }
    Ok(())
}

pub(crate) fn print_codes<S: Coded + Show>(rt: &impl Print, states: &[S]) -> io::Result<()> {
    for state in states {
        println!(rt; "code {}: {}", Shown(*state), Shown(state.code()))?;
    }
    Ok(())
}

pub(crate) fn print_backs<S: Coded + Show>(rt: &impl Print, codes: &[u32]) -> io::Result<()> {
    for n in codes {
        println!(rt; "back {n}: {}", Shown(S::from_code(*n)))?;
    }
    Ok(())
}
