use crate::shared::told;
use sitefile::Reader;
use std::process::Abort;
use std::test::Fail;

// The bytes hold a number, and behind it the number 1.
fn reads(rt: &impl Abort, bytes: &[u8], number: u32) -> Result<(), Fail> {
    let mut reader = Reader::new(bytes);
    assert_eq!(rt; reader.number(), Ok(number));
    assert_eq!(rt; reader.number(), Ok(1));
    Ok(())
}

// The bytes hold no number, and the reader stays, so it says the same again.
fn refuses(rt: &impl Abort, bytes: &[u8], cause: u8, byte: usize) -> Result<(), Fail> {
    let mut reader = Reader::new(bytes);
    assert_eq!(rt; reader.number().map_err(told), Err((cause, byte, 1)));
    assert_eq!(rt; reader.number().map_err(told), Err((cause, byte, 1)));
    Ok(())
}

#[test]
fn numbers_in_their_shortest_form(rt: HostRuntime) -> Result<(), Fail> {
    reads(&rt, &[0x00, 1], 0)?;
    reads(&rt, &[0x7f, 1], 127)?;
    reads(&rt, &[0x80, 0x01, 1], 128)?;
    reads(&rt, &[0xac, 0x02, 1], 300)?;
    reads(&rt, &[0xff, 0xff, 0xff, 0xff, 0x0f, 1], 4_294_967_295)
}

#[test]
fn no_numbers(rt: HostRuntime) -> Result<(), Fail> {
    refuses(&rt, &[], 21, 0)?;
    refuses(&rt, &[0x80, 0x80, 0x80, 0x80], 21, 4)?;
    refuses(&rt, &[0x80, 0x00], 22, 0)?;
    refuses(&rt, &[0x80, 0x80, 0x80, 0x80, 0x00], 22, 0)?;
    refuses(&rt, &[0xff, 0xff, 0xff, 0xff, 0x10], 22, 0)?;
    refuses(&rt, &[0x80, 0x80, 0x80, 0x80, 0x80], 22, 0)
}
