//! Rows of blocks: malloc, memalign, realloc, free and block_size.

use super::{Ask, Case, Seen};
use tlsf_heap::Refusal;

pub(super) const BLOCKS: [Case; 20] = [
    Case {
        name: "first split",
        records: 4,
        steps: &[
            (Ask::Pool(0, 1024), Seen::Done),
            (Ask::Malloc(100), Seen::At(0)),
        ],
        pools: &[(0, &[(0, 112, true), (112, 912, false)])],
    },
    Case {
        name: "reuse without split",
        records: 4,
        steps: &[
            (Ask::Pool(0, 1024), Seen::Done),
            (Ask::Malloc(100), Seen::At(0)),
            (Ask::Malloc(1), Seen::At(112)),
            (Ask::Free(0), Seen::Done),
            (Ask::Malloc(100), Seen::At(0)),
        ],
        pools: &[(0, &[(0, 112, true), (112, 16, true), (128, 896, false)])],
    },
    Case {
        name: "merge both sides",
        records: 4,
        steps: &[
            (Ask::Pool(0, 1024), Seen::Done),
            (Ask::Malloc(100), Seen::At(0)),
            (Ask::Malloc(1), Seen::At(112)),
            (Ask::Free(0), Seen::Done),
            (Ask::Free(112), Seen::Done),
        ],
        pools: &[(0, &[(0, 1024, false)])],
    },
    Case {
        name: "double free",
        records: 4,
        steps: &[
            (Ask::Pool(0, 1024), Seen::Done),
            (Ask::Malloc(100), Seen::At(0)),
            (Ask::Free(0), Seen::Done),
            (Ask::Free(0), Seen::Refused(Refusal::BadPointer)),
        ],
        pools: &[(0, &[(0, 1024, false)])],
    },
    Case {
        name: "lower class not taken",
        records: 2,
        steps: &[
            (Ask::Pool(0, 1040), Seen::Done),
            (Ask::Malloc(1040), Seen::Refused(Refusal::NoFit)),
            (Ask::Malloc(1024), Seen::At(0)),
        ],
        pools: &[(0, &[(0, 1024, true), (1024, 16, false)])],
    },
    Case {
        name: "greatest class",
        records: 2,
        steps: &[
            (Ask::Pool(0, 1_073_741_808), Seen::Done),
            (Ask::Malloc(1_056_964_609), Seen::Refused(Refusal::NoFit)),
            (Ask::Malloc(1_056_964_608), Seen::At(0)),
        ],
        pools: &[(
            0,
            &[(0, 1_056_964_608, true), (1_056_964_608, 16_777_200, false)],
        )],
    },
    Case {
        name: "sizes above the greatest",
        records: 4,
        steps: &[
            (Ask::Pool(0, 1_073_741_808), Seen::Done),
            (Ask::Malloc(1_073_741_809), Seen::Refused(Refusal::NoFit)),
            (Ask::Malloc(u64::MAX), Seen::Refused(Refusal::NoFit)),
            (
                Ask::Memalign(536_870_912, 1_073_741_792),
                Seen::Refused(Refusal::NoFit),
            ),
            (
                Ask::Memalign(536_870_912, u64::MAX),
                Seen::Refused(Refusal::NoFit),
            ),
            (Ask::Memalign(536_870_912, 8), Seen::At(0)),
        ],
        pools: &[(0, &[(0, 16, true), (16, 1_073_741_792, false)])],
    },
    Case {
        name: "newest freed first",
        records: 8,
        steps: &[
            (Ask::Pool(0, 128), Seen::Done),
            (Ask::Malloc(8), Seen::At(0)),
            (Ask::Malloc(8), Seen::At(16)),
            (Ask::Malloc(8), Seen::At(32)),
            (Ask::Malloc(8), Seen::At(48)),
            (Ask::Malloc(8), Seen::At(64)),
            (Ask::Malloc(8), Seen::At(80)),
            (Ask::Malloc(8), Seen::At(96)),
            (Ask::Malloc(8), Seen::At(112)),
            (Ask::Free(0), Seen::Done),
            (Ask::Free(32), Seen::Done),
            (Ask::Malloc(8), Seen::At(32)),
            (Ask::Malloc(8), Seen::At(0)),
            (Ask::Malloc(8), Seen::Refused(Refusal::NoFit)),
        ],
        pools: &[(
            0,
            &[
                (0, 16, true),
                (16, 16, true),
                (32, 16, true),
                (48, 16, true),
                (64, 16, true),
                (80, 16, true),
                (96, 16, true),
                (112, 16, true),
            ],
        )],
    },
    Case {
        name: "full table",
        records: 1,
        steps: &[
            (Ask::Pool(0, 64), Seen::Done),
            (Ask::Malloc(8), Seen::Refused(Refusal::TableFull)),
        ],
        pools: &[(0, &[(0, 64, false)])],
    },
    Case {
        name: "whole block of a full table",
        records: 1,
        steps: &[
            (Ask::Pool(0, 64), Seen::Done),
            (Ask::Malloc(8), Seen::Refused(Refusal::TableFull)),
            (Ask::Malloc(64), Seen::At(0)),
            (Ask::Realloc(0, 8), Seen::Kept),
            (Ask::Size(0), Seen::Bytes(64)),
        ],
        pools: &[(0, &[(0, 64, true)])],
    },
    Case {
        name: "pool limits",
        records: 4,
        steps: &[
            (Ask::Pool(4_294_967_232, 64), Seen::Done),
            (
                Ask::Pool(4_294_967_240, 64),
                Seen::Refused(Refusal::BadPool),
            ),
            (Ask::Pool(4, 64), Seen::Refused(Refusal::BadPool)),
            (Ask::Pool(0, 0), Seen::Refused(Refusal::BadPool)),
            (
                Ask::Pool(4_294_967_168, 72),
                Seen::Refused(Refusal::BadPool),
            ),
            (Ask::Pool(8, 64), Seen::Refused(Refusal::BadPool)),
            (
                Ask::Pool(4_294_967_248, 64),
                Seen::Refused(Refusal::BadPool),
            ),
            (
                Ask::Pool(4_294_967_168, 80),
                Seen::Refused(Refusal::BadPool),
            ),
            (
                Ask::Pool(18_446_744_073_709_551_552, 64),
                Seen::Refused(Refusal::BadPool),
            ),
            (Ask::RemovePool(8), Seen::Refused(Refusal::NoPool)),
            (Ask::Malloc(8), Seen::At(4_294_967_232)),
            (
                Ask::RemovePool(4_294_967_232),
                Seen::Refused(Refusal::PoolInUse),
            ),
            (Ask::Free(4_294_967_232), Seen::Done),
            (Ask::RemovePool(4_294_967_232), Seen::Done),
            (Ask::Malloc(8), Seen::Refused(Refusal::NoFit)),
        ],
        pools: &[],
    },
    Case {
        name: "memalign: gap and rest",
        records: 4,
        steps: &[
            (Ask::Pool(16, 256), Seen::Done),
            (Ask::Memalign(64, 32), Seen::At(64)),
            (Ask::Memalign(3, 0), Seen::Refused(Refusal::BadAlign)),
            (
                Ask::Memalign(1_073_741_824, 8),
                Seen::Refused(Refusal::BadAlign),
            ),
            (Ask::Memalign(8, 0), Seen::Refused(Refusal::ZeroSize)),
        ],
        pools: &[(16, &[(16, 48, false), (64, 32, true), (96, 176, false)])],
    },
    Case {
        name: "memalign needs records",
        records: 2,
        steps: &[
            (Ask::Pool(16, 256), Seen::Done),
            (Ask::Memalign(64, 32), Seen::Refused(Refusal::TableFull)),
            (Ask::Memalign(64, 200), Seen::At(64)),
        ],
        pools: &[(16, &[(16, 48, false), (64, 208, true)])],
    },
    Case {
        name: "grow in place",
        records: 4,
        steps: &[
            (Ask::Pool(0, 1024), Seen::Done),
            (Ask::Malloc(100), Seen::At(0)),
            (Ask::Realloc(0, 200), Seen::Kept),
        ],
        pools: &[(0, &[(0, 208, true), (208, 816, false)])],
    },
    Case {
        name: "and shrink in place",
        records: 4,
        steps: &[
            (Ask::Pool(0, 1024), Seen::Done),
            (Ask::Malloc(100), Seen::At(0)),
            (Ask::Realloc(0, 200), Seen::Kept),
            (Ask::Realloc(0, 8), Seen::Kept),
            (Ask::Realloc(0, 1), Seen::Kept),
            (Ask::Size(0), Seen::Bytes(16)),
        ],
        pools: &[(0, &[(0, 16, true), (16, 1008, false)])],
    },
    Case {
        name: "grow over a freed block",
        records: 3,
        steps: &[
            (Ask::Pool(0, 64), Seen::Done),
            (Ask::Malloc(8), Seen::At(0)),
            (Ask::Malloc(8), Seen::At(16)),
            (Ask::Free(16), Seen::Done),
            (Ask::Realloc(0, 64), Seen::Kept),
        ],
        pools: &[(0, &[(0, 64, true)])],
    },
    Case {
        name: "shrink before a live block, and with no record left",
        records: 3,
        steps: &[
            (Ask::Pool(0, 80), Seen::Done),
            (Ask::Malloc(32), Seen::At(0)),
            (Ask::Malloc(48), Seen::At(32)),
            (Ask::Realloc(0, 8), Seen::Kept),
            (Ask::Realloc(32, 8), Seen::Kept),
            (Ask::Size(32), Seen::Bytes(48)),
        ],
        pools: &[(0, &[(0, 16, true), (16, 16, false), (32, 48, true)])],
    },
    Case {
        name: "realloc moves",
        records: 4,
        steps: &[
            (Ask::Pool(0, 1024), Seen::Done),
            (Ask::Malloc(100), Seen::At(0)),
            (Ask::Malloc(1), Seen::At(112)),
            (Ask::Realloc(0, 200), Seen::At(128)),
            (Ask::Size(0), Seen::Refused(Refusal::BadPointer)),
            (Ask::Realloc(0, 8), Seen::Refused(Refusal::BadPointer)),
        ],
        pools: &[(
            0,
            &[
                (0, 112, false),
                (112, 16, true),
                (128, 208, true),
                (336, 688, false),
            ],
        )],
    },
    Case {
        name: "realloc to zero",
        records: 4,
        steps: &[
            (Ask::Pool(0, 1024), Seen::Done),
            (Ask::ReallocNone(0), Seen::Refused(Refusal::ZeroSize)),
            (Ask::ReallocNone(100), Seen::At(0)),
            (Ask::Realloc(0, 0), Seen::Gone),
            (Ask::Realloc(0, 0), Seen::Refused(Refusal::BadPointer)),
        ],
        pools: &[(0, &[(0, 1024, false)])],
    },
    Case {
        name: "realloc refused",
        records: 4,
        steps: &[
            (Ask::Pool(0, 64), Seen::Done),
            (Ask::Malloc(8), Seen::At(0)),
            (Ask::Malloc(8), Seen::At(16)),
            (Ask::Realloc(0, 128), Seen::Refused(Refusal::NoFit)),
            (
                Ask::Realloc(0, 1_073_741_809),
                Seen::Refused(Refusal::NoFit),
            ),
            (Ask::Realloc(0, u64::MAX), Seen::Refused(Refusal::NoFit)),
            (Ask::Size(0), Seen::Bytes(16)),
        ],
        pools: &[(0, &[(0, 16, true), (16, 16, true), (32, 32, false)])],
    },
];
