// Fields of a word, and numbers in two's complement.

use sx_bits::{field, sign};

#[test]
fn reads_fields(rt: HostRuntime) {
    assert_eq!(rt; field::<6, 0>(0x02A5_8533), 0b011_0011);
    assert_eq!(rt; field::<31, 25>(0x02A5_8533), 1);
    assert_eq!(rt; field::<31, 0>(0xFFFF_FFFF), 0xFFFF_FFFF);
}

#[test]
fn reads_signs(rt: HostRuntime) {
    assert_eq!(rt; sign::<12>(0x7FF), 2047);
    assert_eq!(rt; sign::<12>(0xFFF), -1);
    assert_eq!(rt; sign::<1>(1), -1);
    assert_eq!(rt; sign::<64>(0x8000_0000_0000_0000), i64::MIN);
}
