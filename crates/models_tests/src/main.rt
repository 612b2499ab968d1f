// Prints tables of the models' answers, which are compared with what the rules give by hand.
#![tactic(auto)]

mod grid_tables;
mod layer_tables;
mod lift_tables;
mod shown;
mod tables;

fn main(rt: HostRuntime) -> anyhow::Result<()> {
    grid_tables::print_all(&rt)?;
    lift_tables::print_all(&rt)?;
    layer_tables::print_all(&rt)?;
    Ok(())
}
