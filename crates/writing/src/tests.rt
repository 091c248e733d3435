use crate::builder::Query;
use records::Term;
use semantics::Operator;
use std::test::Fail;

#[test]
fn records_stand_one_after_another(rt: HostRuntime) -> Result<(), Fail> {
    let mut query = Query::new(rt.alloc());
    query.table(3)?;
    query.select(&[
        Term::ByPrefix(Operator::Covers, 0, b"47"),
        Term::ByNumber(Operator::Less, 1, 66051),
        Term::And,
    ])?;
    query.project(&[2, 0])?;
    query.table(3)?;
    query.product()?;
    query.union()?;
    query.difference()?;
    let wanted = [
        1, 0, 1, 0, 3, 22, 0, 2, 0, 4, 0, 0x12, 0, 5, 0, 0x34, 0x37, 6, 0, 0x11, 0, 3, 1, 3, 2, 1,
        0, 0, 0, 0x13, 0, 2, 0, 3, 0, 2, 0, 1, 0, 1, 0, 3, 0, 0, 4, 0, 0, 0, 5, 0, 0, 0, 6, 0,
    ];
    assert!(rt; query.bytes() == wanted.as_slice());
    Ok(())
}
