use mtrace_log::memory::{Full, MemorySink, MemorySource};
use mtrace_log::{Again, Failed, Sink, Source};

#[test]
fn gives_pieces(rt: HostRuntime) {
    let mut reader = MemorySource::failing_after(b"abcd", 3, 1);
    let mut bytes = [0u8; 8];
    assert!(rt; reader.pull(&mut bytes) == Ok(3));
    assert!(rt; &bytes[..3] == b"abc".as_slice());
    assert!(rt; reader.pull(&mut bytes) == Err(Failed));
    assert!(rt; reader.pull(&mut bytes) == Ok(1));
    assert!(rt; reader.pull(&mut bytes) == Ok(0));
    let mut one = [0u8];
    let mut whole = MemorySource::in_pieces(b"ab", 3);
    assert!(rt; whole.pull(&mut one) == Ok(1));
    assert!(rt; one == *b"a");
}

#[test]
fn begins_again(rt: HostRuntime) {
    let mut reader = MemorySource::failing_after(b"abcd", 3, 2);
    let mut bytes = [0u8; 8];
    assert!(rt; reader.pull(&mut bytes) == Ok(3));
    assert!(rt; reader.begin() == Ok(()));
    assert!(rt; reader.begin() == Err(Failed));
    assert!(rt; reader.pull(&mut bytes) == Ok(3));
    assert!(rt; &bytes[..3] == b"abc".as_slice());
    assert!(rt; reader.pull(&mut bytes) == Ok(1));
    assert!(rt; bytes[0] == b'd');
    assert!(rt; reader.pull(&mut bytes) == Ok(0));
    assert!(rt; reader.begin() == Ok(()));
    assert!(rt; reader.pull(&mut bytes) == Ok(3));
    assert!(rt; &bytes[..3] == b"abc".as_slice());
}

#[test]
fn goes_on_where_it_cannot_begin_again(rt: HostRuntime) {
    let mut reader = MemorySource::failing_after(b"abcd", 3, 1);
    let mut bytes = [0u8; 8];
    assert!(rt; reader.pull(&mut bytes) == Ok(3));
    assert!(rt; reader.begin() == Err(Failed));
    assert!(rt; reader.pull(&mut bytes) == Ok(1));
    assert!(rt; bytes[0] == b'd');
}

#[test]
fn takes_pieces(rt: HostRuntime) {
    let mut all = MemorySink::in_pieces(rt.alloc(), 3);
    assert!(rt; all.put(b"abcd") == Ok(3));
    assert!(rt; all.put(b"d") == Ok(1));
    assert!(rt; all.put(b"") == Ok(0));
    assert!(rt; all.flush() == Ok(()));
    assert!(rt; all.bytes() == b"abcd".as_slice());
}

#[test]
fn is_full(rt: HostRuntime) {
    let mut fails = MemorySink::with_room(rt.alloc(), 100, 5, Full::Fails);
    assert!(rt; fails.put(b"No memory leaks.\n") == Ok(5));
    assert!(rt; fails.put(b"mory leaks.\n") == Err(Failed));
    assert!(rt; fails.bytes() == b"No me".as_slice());

    let mut stops = MemorySink::with_room(rt.alloc(), 100, 2, Full::TakesNone).failing_flush();
    assert!(rt; stops.put(b"ab") == Ok(2));
    assert!(rt; stops.put(b"c") == Ok(0));
    assert!(rt; stops.put(b"") == Ok(0));
    assert!(rt; stops.flush() == Err(Failed));
    assert!(rt; stops.bytes() == b"ab".as_slice());
}
