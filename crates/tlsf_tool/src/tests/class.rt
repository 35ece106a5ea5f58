//! The worked sizes, and each class's neighbourhood against a scan of the lowest sizes.

use crate::tests::{expect_eq, expect_eq_at};
use tlsf_class::{
    CLASSES, Class, GREATEST_SIZE, LEVELS, STEPS, UNIT, class_for, class_of, low, round,
};

/// First levels, as the format's table gives them: the number, the lowest size, the step, and the highest
/// multiple of the unit.
const FIRST_LEVELS: [(u32, u32, u32, u32); 6] = [
    (0, 0, 16, 496),
    (1, 512, 16, 1_008),
    (2, 1_024, 32, 2_032),
    (3, 2_048, 64, 4_080),
    (16, 16_777_216, 524_288, 33_554_416),
    (21, 536_870_912, 16_777_216, 1_073_741_808),
];

const CLASSES_OF: [(u32, u32); 15] = [
    (16, 1),
    (112, 7),
    (496, 31),
    (512, 32),
    (688, 43),
    (816, 51),
    (896, 56),
    (912, 57),
    (928, 58),
    (1_008, 63),
    (1_024, 64),
    (2_032, 95),
    (2_048, 96),
    (16_777_200, 511),
    (1_073_741_808, 703),
];

const CLASSES_FOR: [(u32, Option<u32>); 4] = [
    (1_024, Some(64)),
    (1_040, Some(65)),
    (1_056_964_608, Some(703)),
    (1_056_964_624, None),
];

const ROUNDED: [(u64, Option<u32>); 5] = [
    (0, None),
    (1, Some(16)),
    (16, Some(16)),
    (1_073_741_808, Some(1_073_741_808)),
    (1_073_741_809, None),
];

#[test]
fn how_many_classes(rt: HostRuntime) {
    expect_eq(&rt, (LEVELS, STEPS, CLASSES), (22, 32, 704));
}

#[test]
fn lowest_sizes_and_steps_of_the_first_levels(rt: HostRuntime) {
    for (level, lowest, step, _highest) in FIRST_LEVELS {
        assert!(rt; level < LEVELS);
        expect_eq_at(&rt, level, low(Class::new(STEPS * level)), lowest);
        for number in 1..STEPS {
            let below = low(Class::new(STEPS * level + number - 1));
            expect_eq_at(
                &rt,
                level,
                low(Class::new(STEPS * level + number)).checked_sub(below),
                Some(step),
            );
        }
    }
}

/// The highest size of a first level is of its last class, and one unit more is of the next level.
#[test]
fn highest_sizes_of_the_first_levels(rt: HostRuntime) {
    for (level, _lowest, _step, highest) in FIRST_LEVELS {
        assert!(rt; level < LEVELS && highest % UNIT == 0 && highest >= UNIT);
        assert!(rt; highest <= GREATEST_SIZE);
        let next = STEPS * (level + 1);
        expect_eq_at(&rt, level, class_of(highest).number(), next - 1);
        if highest < GREATEST_SIZE {
            let more = highest + UNIT;
            assert!(rt; more % UNIT == 0 && more <= GREATEST_SIZE);
            expect_eq_at(&rt, level, class_of(more).number(), next);
        }
    }
}

#[test]
fn classes_of_worked_sizes(rt: HostRuntime) {
    for (size, number) in CLASSES_OF {
        assert!(rt; size % UNIT == 0 && size >= UNIT && size <= GREATEST_SIZE);
        expect_eq_at(&rt, size, class_of(size).number(), number);
    }
}

#[test]
fn classes_for_worked_sizes(rt: HostRuntime) {
    for (size, number) in CLASSES_FOR {
        assert!(rt; size % UNIT == 0 && size > 0);
        expect_eq_at(
            &rt,
            size,
            class_for(size).map(|class| class.number()),
            number,
        );
    }
}

#[test]
fn rounded_numbers(rt: HostRuntime) {
    for (n, size) in ROUNDED {
        expect_eq_at(&rt, n, round(n), size);
    }
}

/// The greatest class whose lowest size is at most `size`, by looking at every class.
fn scanned_class_of(size: u32) -> u32 {
    let mut found = 0;
    for number in 0..CLASSES {
        if low(Class::new(number)) <= size {
            found = number;
        }
    }
    found
}

/// The least class whose lowest size is at least `size`, by looking at every class.
fn scanned_class_for(size: u32) -> Option<u32> {
    for number in 0..CLASSES {
        if low(Class::new(number)) >= size {
            return Some(number);
        }
    }
    None
}

#[test]
fn each_class_is_that_of_a_scan(rt: HostRuntime) {
    for number in 1..CLASSES {
        let lowest = low(Class::new(number));
        for size in [
            lowest.saturating_sub(UNIT),
            lowest,
            lowest.saturating_add(UNIT),
        ] {
            if size % UNIT == 0 && size >= UNIT && size <= GREATEST_SIZE {
                expect_eq_at(&rt, size, class_of(size).number(), scanned_class_of(size));
                let found = class_for(size).map(|class| class.number());
                expect_eq_at(&rt, size, found, scanned_class_for(size));
            }
        }
    }
}
