//! Rows of more than one pool, and of the greatest arguments.

use super::{Ask, Case, Seen};
use tlsf_heap::Refusal;

pub(super) const POOLS: [Case; 5] = [
    Case {
        name: "pools never merged",
        records: 4,
        steps: &[
            (Ask::Pool(0, 64), Seen::Done),
            (Ask::Pool(64, 64), Seen::Done),
            (Ask::Malloc(64), Seen::At(64)),
            (Ask::Free(64), Seen::Done),
            (Ask::Malloc(128), Seen::Refused(Refusal::NoFit)),
            (Ask::Malloc(0), Seen::Refused(Refusal::ZeroSize)),
        ],
        pools: &[(0, &[(0, 64, false)]), (64, &[(64, 64, false)])],
    },
    // With pools that touch, in whatever order they come.
    Case {
        name: "pools in order",
        records: 3,
        steps: &[
            (Ask::Pool(128, 64), Seen::Done),
            (Ask::Pool(0, 64), Seen::Done),
            (Ask::Pool(64, 64), Seen::Done),
            (Ask::Pool(192, 64), Seen::Refused(Refusal::TableFull)),
            (Ask::Pool(32, 64), Seen::Refused(Refusal::BadPool)),
        ],
        pools: &[
            (0, &[(0, 64, false)]),
            (64, &[(64, 64, false)]),
            (128, &[(128, 64, false)]),
        ],
    },
    Case {
        name: "at most eight pools",
        records: 8,
        steps: &[
            (Ask::Pool(0, 64), Seen::Done),
            (Ask::Pool(64, 64), Seen::Done),
            (Ask::Pool(128, 64), Seen::Done),
            (Ask::Pool(192, 64), Seen::Done),
            (Ask::Pool(256, 64), Seen::Done),
            (Ask::Pool(320, 64), Seen::Done),
            (Ask::Pool(384, 64), Seen::Done),
            (Ask::Pool(448, 64), Seen::Done),
            (Ask::Pool(512, 64), Seen::Refused(Refusal::PoolsFull)),
            (Ask::Pool(480, 64), Seen::Refused(Refusal::BadPool)),
        ],
        pools: &[
            (0, &[(0, 64, false)]),
            (64, &[(64, 64, false)]),
            (128, &[(128, 64, false)]),
            (192, &[(192, 64, false)]),
            (256, &[(256, 64, false)]),
            (320, &[(320, 64, false)]),
            (384, &[(384, 64, false)]),
            (448, &[(448, 64, false)]),
        ],
    },
    Case {
        name: "greatest arguments without a pool",
        records: 65_535,
        steps: &[
            (Ask::Malloc(u64::MAX), Seen::Refused(Refusal::NoFit)),
            (
                Ask::Memalign(1 << 29, u64::MAX),
                Seen::Refused(Refusal::NoFit),
            ),
            (
                Ask::Memalign(1 << 29, 1_073_741_808),
                Seen::Refused(Refusal::NoFit),
            ),
            (Ask::Memalign(1 << 63, 1), Seen::Refused(Refusal::BadAlign)),
            (
                Ask::Pool(u64::MAX - 63, 64),
                Seen::Refused(Refusal::BadPool),
            ),
            (Ask::RemovePool(u64::MAX), Seen::Refused(Refusal::NoPool)),
        ],
        pools: &[],
    },
    Case {
        name: "greatest arguments with four of the greatest pools",
        records: 65_535,
        steps: &[
            (Ask::Pool(0, 1_073_741_808), Seen::Done),
            (Ask::Pool(1_073_741_808, 1_073_741_808), Seen::Done),
            (Ask::Pool(2_147_483_616, 1_073_741_808), Seen::Done),
            (Ask::Pool(3_221_225_424, 1_073_741_808), Seen::Done),
            (Ask::Malloc(u64::MAX), Seen::Refused(Refusal::NoFit)),
            (
                Ask::Memalign(1 << 29, u64::MAX),
                Seen::Refused(Refusal::NoFit),
            ),
            (
                Ask::Memalign(1 << 29, 1_073_741_808),
                Seen::Refused(Refusal::NoFit),
            ),
            (Ask::Memalign(1 << 63, 1), Seen::Refused(Refusal::BadAlign)),
            (
                Ask::Pool(u64::MAX - 63, 64),
                Seen::Refused(Refusal::BadPool),
            ),
            (Ask::RemovePool(u64::MAX), Seen::Refused(Refusal::NoPool)),
        ],
        pools: &[
            (0, &[(0, 1_073_741_808, false)]),
            (1_073_741_808, &[(1_073_741_808, 1_073_741_808, false)]),
            (2_147_483_616, &[(2_147_483_616, 1_073_741_808, false)]),
            (3_221_225_424, &[(3_221_225_424, 1_073_741_808, false)]),
        ],
    },
];
