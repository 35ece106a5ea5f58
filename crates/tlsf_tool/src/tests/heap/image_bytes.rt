//! Images of a few records, byte by byte.

use tlsf_heap::{Image, Rule};

/// Where the heads begin, and the records.
pub(crate) const HEADS_AT: usize = 112;

pub(crate) const RECORDS_AT: usize = 1_520;

/// How many bytes an image of four records has, and one byte more.
const ROOM: usize = RECORDS_AT + 65;

/// An image of four records at most, and a byte behind them.
#[derive(Clone, Copy)]
pub(crate) struct Bytes {
    bytes: [u8; ROOM],
    len: usize,
}

impl Bytes {
    /// This many records below 5, one pool from 0 on of this many bytes below 256, and no list.
    pub(crate) fn new(records: u8, pool: u8) -> Bytes {
        let mut image = Bytes {
            bytes: [0; ROOM],
            len: RECORDS_AT + 16 * usize::from(records.min(4)),
        };
        image.put(0, b"TLSFIMG1");
        image.put(8, &[records, 0, 1, 0]);
        image.put(20, &[pool]);
        for class in 0..704 {
            image.put(HEADS_AT + 2 * class, &[0xff, 0xff]);
        }
        image
    }

    /// Writes bytes from an offset on.
    pub(crate) fn put(&mut self, offset: usize, bytes: &[u8]) {
        let mut at = offset;
        for byte in bytes {
            if at < ROOM {
                self.bytes[at] = *byte;
                at += 1;
            }
        }
    }

    /// The same with one byte changed.
    pub(crate) fn with(mut self, offset: usize, byte: u8) -> Bytes {
        self.put(offset, &[byte]);
        self
    }

    /// The same, this long.
    pub(crate) fn of_len(mut self, len: usize) -> Bytes {
        self.len = len;
        self
    }

    pub(crate) fn as_slice(&self) -> &[u8] {
        &self.bytes[..self.len.min(ROOM)]
    }

    /// The first rule that the bytes break.
    pub(crate) fn broken(&self) -> Option<Rule> {
        Image::read(self.as_slice()).err()
    }
}

/// One record and one pool of 64 bytes, all free.
pub(crate) fn vector() -> Bytes {
    let mut image = Bytes::new(1, 64);
    image.put(HEADS_AT + 2 * 4, &[0, 0]);
    image.put(
        RECORDS_AT,
        b"\x00\x00\x00\x00\x41\x00\x00\x00\xff\xff\xff\xff\xff\xff\xff\xff",
    );
    image
}
