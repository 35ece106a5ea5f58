use crate::tests::expect_eq;
use mtrace_log::{Addr, LONGEST_LOCATION, Location};

#[test]
fn spells_addresses(rt: HostRuntime) {
    let rows: [(u64, &[u8]); 5] = [
        (1, b"0x1"),
        (0x10, b"0x10"),
        (0x1000, b"0x1000"),
        (0xabcdef0123456789, b"0xabcdef0123456789"),
        (u64::MAX, b"0xffffffffffffffff"),
    ];
    for (number, text) in rows {
        let address = Addr::new(number).expect(&rt, "an address");
        expect_eq(&rt, address.value(), number);
        assert!(rt; address.text().as_slice() == text, "{number}");
    }
    assert!(rt; Addr::new(0).is_none());
}

#[test]
fn bounds_locations(rt: HostRuntime) {
    let bytes = [b'a'; LONGEST_LOCATION + 1];
    assert!(rt; Location::new(&bytes).is_none());
    assert!(rt; Location::new(b"").is_none());
    assert!(rt; Location::new(b"a b").is_none());
    assert!(rt; Location::new(b"a\x7F").is_none());
    let place = Location::new(&bytes[..LONGEST_LOCATION]).expect(&rt, "a location");
    assert!(rt; place.bytes() == &bytes[..LONGEST_LOCATION]);
    let high = Location::new(b"\xC3\xA9!").expect(&rt, "a location");
    assert!(rt; high.bytes() == b"\xC3\xA9!".as_slice());
}
