use crate::refusal::refusal_record;
use crate::reply::write_reply;
use cells::{Cell, Prefix};
use semantics::Refusal;
use std::test::Fail;
use view::Masked;
use workspace::Block;

const NONE: Block = Block {
    first: 0,
    count: 0,
    width: 0,
};

fn number(n: u32) -> Masked {
    Masked::Value(Cell::Number(n))
}

fn prefix(digits: &[u8]) -> Result<Masked, Refusal> {
    Ok(Masked::Value(Cell::Prefix(Prefix::from_bytes(digits)?)))
}

#[test]
fn each_sort_of_cell(rt: HostRuntime) -> Result<(), Fail> {
    let variable = Masked::Variable {
        table: 0,
        row: 1,
        column: 0,
    };
    let pseudonym = Masked::Pseudonym {
        domain: 2,
        index: 300,
    };
    let work = [
        number(3100),
        prefix(b"47")?,
        prefix(b"")?,
        variable,
        pseudonym,
    ];
    let row = Block {
        first: 0,
        count: 1,
        width: 5,
    };
    let mut out = [0xee; 32];
    assert_eq!(rt; write_reply(&work, row, NONE, &mut out), Some(31));
    assert_eq!(rt;
        out,
        [
            0x04, 0x00, 0x20, 0x00, 0x01, 0x00, 0x00, 0x00, 0x13, 0x00, 0x21, 0x00, 0x01, 0x1c,
            0x0c, 0x00, 0x00, 0x02, 0x02, 0x34, 0x37, 0x02, 0x00, 0x03, 0x00, 0x01, 0x00, 0x04,
            0x02, 0x2c, 0x01, 0xee,
        ]
    );
    Ok(())
}

/// The rows (47, 1, 3100) and (variable 0.1.0, 2, 2750) at the rows 1 and 2 of a workspace.
fn two_rows() -> Result<[Masked; 24], Refusal> {
    let mut work = [number(0); 24];
    work[8] = prefix(b"47")?;
    work[9] = number(1);
    work[10] = number(3100);
    work[16] = Masked::Variable {
        table: 0,
        row: 1,
        column: 0,
    };
    work[17] = number(2);
    work[18] = number(2750);
    Ok(work)
}

const ROWS: Block = Block {
    first: 1,
    count: 2,
    width: 3,
};

#[test]
fn two_possible_rows_fit_in_44_bytes(rt: HostRuntime) -> Result<(), Fail> {
    let work = two_rows()?;
    let mut out = [0xee; 44];
    assert_eq!(rt; write_reply(&work, NONE, ROWS, &mut out), Some(44));
    assert_eq!(rt;
        out,
        [
            0x04, 0x00, 0x20, 0x00, 0x00, 0x00, 0x02, 0x00, 0x0e, 0x00, 0x22, 0x00, 0x02, 0x02,
            0x34, 0x37, 0x01, 0x01, 0x00, 0x00, 0x00, 0x01, 0x1c, 0x0c, 0x00, 0x00, 0x0e, 0x00,
            0x22, 0x00, 0x03, 0x00, 0x01, 0x00, 0x01, 0x02, 0x00, 0x00, 0x00, 0x01, 0xbe, 0x0a,
            0x00, 0x00,
        ]
    );
    let mut short = [0xee; 43];
    assert_eq!(rt; write_reply(&work, NONE, ROWS, &mut short), None);
    assert_eq!(rt; short, [0xee; 43]);
    Ok(())
}

#[test]
fn record_of_a_refusal(rt: HostRuntime) {
    assert_eq!(rt;
        refusal_record(Refusal::WrongForm(3)),
        [0x02, 0x00, 0x23, 0x00, 0x0f, 0x03]
    );
}
