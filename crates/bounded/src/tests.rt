use crate::bounded::Bounded;
use crate::full::Full;
use std::test::Fail;

#[test]
fn three_places(rt: HostRuntime) -> Result<(), Fail> {
    let mut list: Bounded<u8, 3> = Bounded::new(0);
    assert_eq!(rt; list.pop(), None);
    list.extend(&[4, 7])?;
    assert_eq!(rt; list.extend(&[1, 2]), Err(Full));
    assert!(rt; !list.is_full());
    list.push(9)?;
    assert!(rt; list.is_full());
    assert_eq!(rt; list.push(5), Err(Full));
    list.set(0, 6);
    list.set(3, 8);
    assert_eq!(rt; list.as_slice(), [6, 7, 9].as_slice());
    assert_eq!(rt; list.pop(), Some(9));
    assert_eq!(rt; list.len(), 2);
    let mut other = Bounded::new(1);
    other.extend(&[6, 7])?;
    assert!(rt; list == other);
    Ok(())
}
