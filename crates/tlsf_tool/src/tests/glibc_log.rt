//! A log that glibc 2.36 wrote for a C program that only allocates.

use super::rows::{PIECES, expect_report};
use mtrace_replay::Settings;

/// What glibc's tracer wrote.
const LOG: &[u8] = b"\
= Start\n\
@ ./allocs:[0x11c6] + 0x560dc70114a0 0x20\n\
@ ./allocs:[0x11c6] + 0x560dc70114d0 0x45\n\
@ ./allocs:[0x11c6] + 0x560dc7011520 0x6a\n\
@ ./allocs:[0x11c6] + 0x560dc70115a0 0x35\n\
@ ./allocs:[0x11c6] + 0x560dc70115e0 0x5a\n\
@ ./allocs:[0x11c6] + 0x560dc7011650 0x25\n\
@ ./allocs:[0x11c6] + 0x560dc7011680 0x4a\n\
@ ./allocs:[0x11c6] + 0x560dc70116e0 0x6f\n\
@ ./allocs:[0x11c6] + 0x560dc7011760 0x3a\n\
@ ./allocs:[0x11c6] + 0x560dc70117b0 0x5f\n\
@ ./allocs:[0x11c6] + 0x560dc7011820 0x2a\n\
@ ./allocs:[0x11c6] + 0x560dc7011860 0x4f\n\
@ ./allocs:[0x11c6] + 0x560dc70118c0 0x74\n\
@ ./allocs:[0x11c6] + 0x560dc7011940 0x3f\n\
@ ./allocs:[0x11c6] + 0x560dc7011990 0x64\n\
@ ./allocs:[0x11c6] + 0x560dc7011a00 0x2f\n\
@ ./allocs:[0x11c6] + 0x560dc7011a40 0x54\n\
@ ./allocs:[0x11c6] + 0x560dc7011aa0 0x79\n\
@ ./allocs:[0x11c6] + 0x560dc7011b30 0x44\n\
@ ./allocs:[0x11c6] + 0x560dc7011b80 0x69\n\
@ ./allocs:[0x11c6] + 0x560dc7011c00 0x34\n\
@ ./allocs:[0x11c6] + 0x560dc7011c40 0x59\n\
@ ./allocs:[0x11c6] + 0x560dc7011cb0 0x24\n\
@ ./allocs:[0x11c6] + 0x560dc7011ce0 0x49\n\
@ ./allocs:[0x11c6] + 0x560dc7011d40 0x6e\n\
@ ./allocs:[0x11c6] + 0x560dc7011dc0 0x39\n\
@ ./allocs:[0x11c6] + 0x560dc7011e10 0x5e\n\
@ ./allocs:[0x11c6] + 0x560dc7011e80 0x29\n\
@ ./allocs:[0x11c6] + 0x560dc7011ec0 0x4e\n\
@ ./allocs:[0x11c6] + 0x560dc7011f20 0x73\n\
@ ./allocs:[0x11c6] + 0x560dc7011fa0 0x3e\n\
@ ./allocs:[0x11c6] + 0x560dc7011ff0 0x63\n\
@ ./allocs:[0x11c6] + 0x560dc7012060 0x2e\n\
@ ./allocs:[0x11c6] + 0x560dc70120a0 0x53\n\
@ ./allocs:[0x11c6] + 0x560dc7012100 0x78\n\
@ ./allocs:[0x11c6] + 0x560dc7012180 0x43\n\
@ ./allocs:[0x11c6] + 0x560dc70121d0 0x68\n\
@ ./allocs:[0x11c6] + 0x560dc7012240 0x33\n\
@ ./allocs:[0x11c6] + 0x560dc7012280 0x58\n\
@ ./allocs:[0x11c6] + 0x560dc70122e0 0x23\n\
@ ./allocs:[0x11f6] + 0x560dc7012310 0x400\n\
@ ./allocs:[0x1204] + 0x560dc70112a0 0\n\
= End\n";

/// What is held at its end.
const TEXT: &[u8] = b"\
Memory not freed:\n\
0x560dc70112a0 0 line 43 at ./allocs:[0x1204]\n\
0x560dc70114a0 32 line 2 at ./allocs:[0x11c6]\n\
0x560dc70114d0 69 line 3 at ./allocs:[0x11c6]\n\
0x560dc7011520 106 line 4 at ./allocs:[0x11c6]\n\
0x560dc70115a0 53 line 5 at ./allocs:[0x11c6]\n\
0x560dc70115e0 90 line 6 at ./allocs:[0x11c6]\n\
0x560dc7011650 37 line 7 at ./allocs:[0x11c6]\n\
0x560dc7011680 74 line 8 at ./allocs:[0x11c6]\n\
0x560dc70116e0 111 line 9 at ./allocs:[0x11c6]\n\
0x560dc7011760 58 line 10 at ./allocs:[0x11c6]\n\
0x560dc70117b0 95 line 11 at ./allocs:[0x11c6]\n\
0x560dc7011820 42 line 12 at ./allocs:[0x11c6]\n\
0x560dc7011860 79 line 13 at ./allocs:[0x11c6]\n\
0x560dc70118c0 116 line 14 at ./allocs:[0x11c6]\n\
0x560dc7011940 63 line 15 at ./allocs:[0x11c6]\n\
0x560dc7011990 100 line 16 at ./allocs:[0x11c6]\n\
0x560dc7011a00 47 line 17 at ./allocs:[0x11c6]\n\
0x560dc7011a40 84 line 18 at ./allocs:[0x11c6]\n\
0x560dc7011aa0 121 line 19 at ./allocs:[0x11c6]\n\
0x560dc7011b30 68 line 20 at ./allocs:[0x11c6]\n\
0x560dc7011b80 105 line 21 at ./allocs:[0x11c6]\n\
0x560dc7011c00 52 line 22 at ./allocs:[0x11c6]\n\
0x560dc7011c40 89 line 23 at ./allocs:[0x11c6]\n\
0x560dc7011cb0 36 line 24 at ./allocs:[0x11c6]\n\
0x560dc7011ce0 73 line 25 at ./allocs:[0x11c6]\n\
0x560dc7011d40 110 line 26 at ./allocs:[0x11c6]\n\
0x560dc7011dc0 57 line 27 at ./allocs:[0x11c6]\n\
0x560dc7011e10 94 line 28 at ./allocs:[0x11c6]\n\
0x560dc7011e80 41 line 29 at ./allocs:[0x11c6]\n\
0x560dc7011ec0 78 line 30 at ./allocs:[0x11c6]\n\
0x560dc7011f20 115 line 31 at ./allocs:[0x11c6]\n\
0x560dc7011fa0 62 line 32 at ./allocs:[0x11c6]\n\
0x560dc7011ff0 99 line 33 at ./allocs:[0x11c6]\n\
0x560dc7012060 46 line 34 at ./allocs:[0x11c6]\n\
0x560dc70120a0 83 line 35 at ./allocs:[0x11c6]\n\
0x560dc7012100 120 line 36 at ./allocs:[0x11c6]\n\
0x560dc7012180 67 line 37 at ./allocs:[0x11c6]\n\
0x560dc70121d0 104 line 38 at ./allocs:[0x11c6]\n\
0x560dc7012240 51 line 39 at ./allocs:[0x11c6]\n\
0x560dc7012280 88 line 40 at ./allocs:[0x11c6]\n\
0x560dc70122e0 35 line 41 at ./allocs:[0x11c6]\n\
0x560dc7012310 1024 line 42 at ./allocs:[0x11f6]\n\
Total: 42 blocks, 4074 bytes.\n";

#[test]
fn log_of_glibc(rt: HostRuntime) {
    for piece in PIECES {
        expect_report(
            &rt,
            rt.alloc(),
            "a log of glibc",
            Settings::DEFAULT,
            LOG,
            piece,
            TEXT,
            1,
        );
    }
}
