use crate::prefix::Prefix;
use semantics::Refusal;
use std::test::Fail;

#[test]
fn from_no_digit_to_eight(rt: HostRuntime) -> Result<(), Fail> {
    for digits in [b"".as_slice(), b"0", b"00471", b"99999999"] {
        let prefix = Prefix::from_bytes(digits)?;
        assert!(rt; prefix.digits() == digits);
    }
    for bytes in [b"123456789".as_slice(), b"47a", b"4 7", b"/", b":"] {
        assert_eq!(rt; Prefix::from_bytes(bytes), Err(Refusal::NotPrefix));
    }
    Ok(())
}
