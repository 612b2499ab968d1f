// Examples that are run.
use crate::generator::Generator;
use crate::recorded::Recorded;
use crate::restore::peek;
use crate::source::Source;
use refusals::Refusal;
use std::test::Fail;

#[test]
fn generator_from_0(rt: HostRuntime) -> Result<(), Fail> {
    let mut generator = Generator::from_value(0);
    assert_eq!(rt; peek(&mut generator), 1013904223);
    assert_eq!(rt; generator.draw()?, 1013904223);
    assert_eq!(rt; generator.draw()?, 1196435762);
    assert!(rt; generator.can_draw(4294967295));
    Ok(())
}

#[test]
fn recorded_numbers_come_in_order(rt: HostRuntime) -> Result<(), Fail> {
    let mut source = Recorded::new();
    assert_eq!(rt; source.draw(), Err(Refusal::SourceDry));
    source.record_number(5)?;
    source.record_number(7)?;
    assert_eq!(rt; source.draw()?, 5);
    assert!(rt; source.can_draw(1));
    assert!(rt; !source.can_draw(2));
    assert_eq!(rt; source.draw()?, 7);
    assert_eq!(rt; source.draw(), Err(Refusal::SourceDry));
    assert_eq!(rt; source.recorded_count(), 2);
    Ok(())
}

#[test]
fn room_for_512(rt: HostRuntime) -> Result<(), Fail> {
    let mut source = Recorded::new();
    for i in 0..512 {
        source.record_number(i)?;
    }
    assert_eq!(rt; source.record_number(0), Err(Refusal::NoRoom));
    assert_eq!(rt; source.draw()?, 0);
    assert_eq!(rt; source.record_number(0), Err(Refusal::NoRoom));
    assert!(rt; source.can_draw(511));
    assert!(rt; !source.can_draw(512));
    Ok(())
}
