// Examples that are run.
use crate::input::{LONGEST_INPUT, read_input};
use std::test::Fail;

#[test]
fn input_is_read_to_one_byte_more(rt: HostRuntime) -> Result<(), Fail> {
    let heap = rt.alloc();
    let short: &[u8] = b"5,0,5\n4294967295\n";
    assert_eq!(rt; read_input(heap, short)?.as_slice(), short);
    let nothing: &[u8] = b"";
    assert_eq!(rt; read_input(heap, nothing)?.len(), 0);
    let longest = vec![in heap; b'7'; LONGEST_INPUT]?;
    assert_eq!(rt; read_input(heap, longest.as_slice())?.len(), 32768);
    let longer = vec![in heap; b'7'; LONGEST_INPUT + 2]?;
    assert_eq!(rt; read_input(heap, longer.as_slice())?.len(), 32769);
    Ok(())
}
