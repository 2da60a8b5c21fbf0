//! Rounded quotients, at both ends of their types too.
use exr_math::RoundingMode;

// A dividend, a divisor, and their quotients rounded down and up.
const OF_USIZE: [(usize, usize, Option<usize>, Option<usize>); 9] = [
    (0, 5, Some(0), Some(0)),
    (7, 2, Some(3), Some(4)),
    (8, 2, Some(4), Some(4)),
    (1, 9, Some(0), Some(1)),
    (
        18446744073709551615,
        1,
        Some(18446744073709551615),
        Some(18446744073709551615),
    ),
    (
        18446744073709551615,
        2,
        Some(9223372036854775807),
        Some(9223372036854775808),
    ),
    (18446744073709551615, 18446744073709551615, Some(1), Some(1)),
    (18446744073709551614, 18446744073709551615, Some(0), Some(1)),
    (3, 0, None, None),
];

const OF_I32: [(i32, i32, Option<i32>, Option<i32>); 7] = [
    (0, 1, Some(0), Some(0)),
    (2147483647, 2, Some(1073741823), Some(1073741824)),
    (2147483647, 2147483647, Some(1), Some(1)),
    (-1, 2, None, None),
    (-2147483648, 1, None, None),
    (5, 0, None, None),
    (5, -1, None, None),
];

#[test]
fn quotients_of_usize(rt: HostRuntime) {
    for (dividend, divisor, down, up) in OF_USIZE {
        assert_eq!(rt; RoundingMode::Down.divide(dividend, divisor), down);
        assert_eq!(rt; RoundingMode::Up.divide(dividend, divisor), up);
    }
}

#[test]
fn quotients_of_i32(rt: HostRuntime) {
    for (dividend, divisor, down, up) in OF_I32 {
        assert_eq!(rt; RoundingMode::Down.divide(dividend, divisor), down);
        assert_eq!(rt; RoundingMode::Up.divide(dividend, divisor), up);
    }
}
