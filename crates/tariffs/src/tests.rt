use crate::columns::tariff_columns;
use crate::{from_hex, store};
use cells::{Cell, Prefix};
use std::test::Fail;

#[test]
fn what_is_no_digit_is_passed_over(rt: HostRuntime) -> Result<(), Fail> {
    let bytes = from_hex(rt.alloc(), "01 fF0, 9")?;
    assert!(rt; bytes.as_slice() == [0x01, 0xf0].as_slice());
    Ok(())
}

#[test]
fn a_tariff_is_stored(rt: HostRuntime) -> Result<(), Fail> {
    let mut memory = [Cell::Number(9); 32];
    let mut book = tariff_columns().open(&mut memory);
    store(&mut book, 0, b"47", 1, 3100)?;
    let wanted = [
        Cell::Prefix(Prefix::from_bytes(b"47")?),
        Cell::Number(1),
        Cell::Number(3100),
    ];
    assert!(rt; book.row(0, 0) == Some(wanted.as_slice()));
    Ok(())
}
