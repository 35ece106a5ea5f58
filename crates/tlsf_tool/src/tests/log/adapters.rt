use crate::progress::{Counted, Notice};
use crate::tests::expect_eq_at;
use mtrace_log::{Again, Event, Failed, FromRead, Lines, Sink, Source, ToWrite};
use std::alloc::Global;
use std::io;
use std::io::{BufReader, Cursor, ErrorKind, Read, Seek, SeekFrom, Write};
use std::process::Abort;
use std::test::Fail;

#[test]
fn reads_from_std(rt: HostRuntime) {
    let text: &[u8] = b"= Start\n= End";
    let mut reader = FromRead::new(text);
    let mut lines = Lines::new();
    let first = lines.next(&mut reader);
    assert!(rt;
        matches!(&first, Ok(Some(line)) if line.number == 1 && line.event == Ok(Event::Start))
    );
    let second = lines.next(&mut reader);
    assert!(rt;
        matches!(&second, Ok(Some(line)) if line.number == 2 && line.event == Ok(Event::End))
    );
    assert!(rt; lines.next(&mut reader) == Ok(None));
}

#[test]
fn writes_to_std(rt: HostRuntime) {
    let mut room = [0u8; 3];
    {
        let mut writer = ToWrite::new(room.as_mut_slice());
        assert!(rt; writer.put(b"abcd") == Ok(3));
        assert!(rt; writer.put(b"d") == Ok(0));
        assert!(rt; writer.flush() == Ok(()));
    }
    assert!(rt; room == *b"abc");
}

/// The kinds of std's errors.
const KINDS: [ErrorKind; 42] = [
    ErrorKind::NotFound,
    ErrorKind::PermissionDenied,
    ErrorKind::ConnectionRefused,
    ErrorKind::ConnectionReset,
    ErrorKind::HostUnreachable,
    ErrorKind::NetworkUnreachable,
    ErrorKind::ConnectionAborted,
    ErrorKind::NotConnected,
    ErrorKind::AddrInUse,
    ErrorKind::AddrNotAvailable,
    ErrorKind::NetworkDown,
    ErrorKind::BrokenPipe,
    ErrorKind::AlreadyExists,
    ErrorKind::WouldBlock,
    ErrorKind::NotADirectory,
    ErrorKind::IsADirectory,
    ErrorKind::DirectoryNotEmpty,
    ErrorKind::ReadOnlyFilesystem,
    ErrorKind::FilesystemLoop,
    ErrorKind::StaleNetworkFileHandle,
    ErrorKind::InvalidInput,
    ErrorKind::InvalidData,
    ErrorKind::TimedOut,
    ErrorKind::WriteZero,
    ErrorKind::StorageFull,
    ErrorKind::NotSeekable,
    ErrorKind::QuotaExceeded,
    ErrorKind::FileTooLarge,
    ErrorKind::ResourceBusy,
    ErrorKind::ExecutableFileBusy,
    ErrorKind::Deadlock,
    ErrorKind::CrossesDevices,
    ErrorKind::TooManyLinks,
    ErrorKind::InvalidFilename,
    ErrorKind::ArgumentListTooLong,
    ErrorKind::Interrupted,
    ErrorKind::Unsupported,
    ErrorKind::UnexpectedEof,
    ErrorKind::OutOfMemory,
    ErrorKind::InProgress,
    ErrorKind::Other,
    ErrorKind::Uncategorized,
];

/// A reader and a writer that counts its calls. The one of this number fails with this kind; each other does
/// all that it is asked.
#[derive(Drop)]
struct FailsOnce {
    kind: ErrorKind,
    failing: u32,
    calls: u32,
}

impl FailsOnce {
    fn call(&mut self) -> io::Result<()> {
        let number = self.calls;
        self.calls = number.wrapping_add(1);
        if number == self.failing {
            return Err(io::Error::from(self.kind));
        }
        Ok(())
    }
}

impl Read for FailsOnce {
    fn read(&mut self, buf: &mut [u8]) -> io::Result<usize> {
        self.call()?;
        Ok(buf.len())
    }
}

impl Write for FailsOnce {
    fn write(&mut self, buf: &[u8]) -> io::Result<usize> {
        self.call()?;
        Ok(buf.len())
    }

    fn flush(&mut self) -> io::Result<()> {
        self.call()
    }
}

impl Seek for FailsOnce {
    fn seek(&mut self, _to: SeekFrom) -> io::Result<u64> {
        self.call()?;
        Ok(0)
    }
}

/// Reads five bytes, then from the first on all ten.
fn expect_all_again<R: Again>(rt: &impl Abort, reader: &mut R) {
    let mut bytes = [0u8; 5];
    assert!(rt; reader.pull(&mut bytes) == Ok(5));
    assert!(rt; &bytes == b"01234");
    assert!(rt; reader.begin() == Ok(()));
    assert!(rt; reader.pull(&mut bytes) == Ok(5));
    assert!(rt; &bytes == b"01234");
    assert!(rt; reader.pull(&mut bytes) == Ok(5));
    assert!(rt; &bytes == b"56789");
    assert!(rt; reader.pull(&mut bytes) == Ok(0));
    assert!(rt; reader.begin() == Ok(()));
    assert!(rt; reader.pull(&mut bytes) == Ok(5));
    assert!(rt; &bytes == b"01234");
}

#[test]
fn begins_again_where_std_seeks(rt: HostRuntime) -> Result<(), Fail> {
    let digits = b"0123456789".as_slice();
    expect_all_again(&rt, &mut FromRead::new(Cursor::new(digits)));
    let notice = Notice::new(&rt, false);
    let buffered = BufReader::with_capacity(rt.alloc(), 5, Cursor::new(digits))?;
    expect_all_again(&rt, &mut FromRead::new(Counted::new(&notice, buffered)));
    Ok(())
}

#[test]
fn fails_to_begin_where_std_fails_to_seek(rt: HostRuntime) {
    for kind in KINDS {
        let mut source = FromRead::new(FailsOnce {
            kind,
            failing: 1,
            calls: 0,
        });
        assert!(rt; source.begin() == Ok(()), "{kind:?}");
        assert!(rt; source.begin() == Err(Failed), "{kind:?}");
        assert!(rt; source.begin() == Ok(()), "{kind:?}");
    }
}

/// Pulls this many times; each call answers what the reader's call answers.
fn expect_pulls(rt: &impl Abort, kind: ErrorKind, failing: u32, calls: u32) {
    let mut reader = FailsOnce {
        kind,
        failing,
        calls: 0,
    };
    {
        let mut source = FromRead::new(&mut reader);
        for number in 0..calls {
            let mut bytes = [0u8; 3];
            let answer = source.pull(&mut bytes);
            if number == failing {
                assert!(rt; answer == Err(Failed), "{kind:?}");
            } else {
                assert!(rt; answer == Ok(3), "{kind:?}");
            }
        }
    }
    expect_eq_at(rt, kind, reader.calls, calls);
}

/// Puts bytes and flushes in turn, this many times; each call answers what the writer's call answers.
fn expect_puts_and_flushes(rt: &impl Abort, kind: ErrorKind, failing: u32, calls: u32) {
    let mut writer = FailsOnce {
        kind,
        failing,
        calls: 0,
    };
    {
        let mut sink = ToWrite::new(&mut writer);
        for number in 0..calls {
            let answer = if number % 2 == 0 {
                sink.put(b"abc")
            } else {
                sink.flush().map(|()| 3)
            };
            if number == failing {
                assert!(rt; answer == Err(Failed), "{kind:?}");
            } else {
                assert!(rt; answer == Ok(3), "{kind:?}");
            }
        }
    }
    expect_eq_at(rt, kind, writer.calls, calls);
}

#[test]
fn fails_where_std_fails_and_calls_it_once(rt: HostRuntime) {
    for kind in KINDS {
        for failing in 0..3u32 {
            for calls in 1..5u32 {
                expect_pulls(&rt, kind, failing, calls);
                expect_puts_and_flushes(&rt, kind, failing, calls);
            }
        }
    }
}

/// A reader of this many bytes, one a call, each the last digit of its number.
#[derive(Drop)]
struct Digits {
    given: u32,
    bytes: u32,
}

impl Read for Digits {
    fn read(&mut self, buf: &mut [u8]) -> io::Result<usize> {
        if self.given == self.bytes || buf.is_empty() {
            return Ok(0);
        }
        buf[0] = b'0' + (self.given % 10) as u8;
        self.given = self.given.wrapping_add(1);
        Ok(1)
    }
}

#[test]
fn reads_many_bytes_from_std(rt: HostRuntime) {
    let mut reader = FromRead::new(Digits {
        given: 0,
        bytes: 21_000_000,
    });
    let mut byte = [0u8; 7];
    for number in 0..21_000_000u32 {
        assert!(rt; reader.pull(&mut byte) == Ok(1), "{number}");
        assert!(rt; byte[0] == b'0' + (number % 10) as u8, "{number}");
    }
    assert!(rt; reader.pull(&mut byte) == Ok(0));
}

/// Pulls and puts this many bytes, each at once.
fn expect_one_call(rt: &impl Abort, alloc: Global, count: u32) -> Result<(), Fail> {
    let bytes = vec![in alloc; b'a'; count as usize]?;
    let mut read = vec![in alloc; b'b'; count as usize + 1]?;
    let mut reader = FromRead::new(bytes.as_slice());
    assert!(rt; reader.pull(read.as_mut_slice()) == Ok(bytes.len()));
    assert!(rt; read.as_slice().starts_with(bytes.as_slice()));
    let mut writer = ToWrite::new(Vec::new(alloc));
    assert!(rt; writer.put(bytes.as_slice()) == Ok(bytes.len()));
    Ok(())
}

#[test]
fn many_bytes_in_one_call(rt: HostRuntime) -> Result<(), Fail> {
    expect_one_call(&rt, rt.alloc(), 1_000_000)
}
