//! Logarithms at the first numbers, at a power of two and at the greatest number.
use exr_math::{RoundingMode, ceil_log_2, floor_log_2};

// A number, its logarithm rounded down, and its logarithm rounded up.
const LOGARITHMS: [(u32, u32, u32); 10] = [
    (0, 0, 0),
    (1, 0, 0),
    (2, 1, 1),
    (3, 1, 2),
    (4, 2, 2),
    (5, 2, 3),
    (2147483647, 30, 31),
    (2147483648, 31, 31),
    (2147483649, 31, 32),
    (4294967295, 31, 32),
];

#[test]
fn logarithms_at_examples(rt: HostRuntime) {
    for (number, down, up) in LOGARITHMS {
        assert_eq!(rt; floor_log_2(number), down);
        assert_eq!(rt; ceil_log_2(number), up);
        assert_eq!(rt; RoundingMode::Down.log2(number), down);
        assert_eq!(rt; RoundingMode::Up.log2(number), up);
    }
}
