use crate::masked::Masked;
use cells::{Cell, Prefix};
use std::test::Fail;

#[test]
fn cells_as_a_person_reads_them(rt: HostRuntime) -> Result<(), Fail> {
    let number = Masked::Value(Cell::Number(47));
    let prefix = Masked::Value(Cell::Prefix(Prefix::from_bytes(b"0049")?));
    let variable = Masked::Variable {
        table: 255,
        row: 255,
        column: 255,
    };
    let pseudonym = Masked::Pseudonym {
        domain: 15,
        index: 65535,
    };
    let text = format!(in rt.alloc();
        "[{number:>4}][{prefix:<6}][{variable}][{variable:>14}][{pseudonym:>9}]"
    )?;
    assert_eq!(rt;
        text.as_str(),
        "[  47][0049  ][?255.255.255][  ?255.255.255][ 15#65535]"
    );
    Ok(())
}
