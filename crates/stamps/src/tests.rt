use super::{CardNo, TxNo, VersionNo};
use std::test::Fail;

// The numbers are ordered and shown as the counts that they are.
#[test]
fn numbers_are_ordered_and_shown(rt: HostRuntime) -> Result<(), Fail> {
    assert!(rt; VersionNo(9) < VersionNo(10));
    for (number, text) in [(0, "0"), (10, "10"), (u32::MAX, "4294967295")] {
        assert_eq!(rt; CardNo(number).to_string(rt.alloc())?.as_str(), text);
        assert_eq!(rt; VersionNo(number).to_string(rt.alloc())?.as_str(), text);
        assert_eq!(rt; TxNo(number).to_string(rt.alloc())?.as_str(), text);
    }
    Ok(())
}
