//! Settings that a replay starts by, and those that it refuses.

use super::*;

fn is_bad<H: Heaped>(alloc: Global, settings: Settings) -> bool {
    Replay::<H>::create(alloc, settings).err() == Some(ReplayFault::BadSettings)
}

#[test]
fn bad_settings(rt: HostRuntime) {
    let bad = [
        Settings { pool: 8, ..SMALL },
        Settings { pool: 24, ..SMALL },
        Settings { pool: 0, ..SMALL },
        Settings {
            pool: 1_073_741_824,
            ..SMALL
        },
        Settings { pools: 0, ..SMALL },
        Settings { pools: 9, ..SMALL },
        Settings {
            records: 0,
            ..SMALL
        },
        Settings {
            records: 65_536,
            ..SMALL
        },
        Settings {
            pools: 2,
            records: 1,
            ..SMALL
        },
        Settings {
            pool: 1_073_741_808,
            pools: 8,
            records: 8,
        },
    ];
    for settings in bad {
        assert!(rt; is_bad::<Heap>(rt.alloc(), settings), "{settings:?}");
        assert!(rt; is_bad::<PlainHeap>(rt.alloc(), settings), "{settings:?}");
    }
}

#[test]
fn settings_at_the_limits(rt: HostRuntime) {
    let taken = [
        Settings {
            pool: 1_073_741_808,
            pools: 4,
            records: 4,
        },
        Settings {
            pool: 16,
            pools: 8,
            records: 8,
        },
    ];
    for settings in taken {
        assert!(rt;
            Replay::<Heap>::create(rt.alloc(), settings).is_ok(),
            "{settings:?}"
        );
        assert!(rt;
            Replay::<PlainHeap>::create(rt.alloc(), settings).is_ok(),
            "{settings:?}"
        );
    }
}
