//! Vectors whose coordinates fit, and those whose coordinates do not.
use exr_vec2::Vec2;
use exr_vec2_ops::{add, neg, sub};

#[test]
fn sums_and_differences(rt: HostRuntime) {
    assert_eq!(rt; add(Vec2(1i32, -2), Vec2(3, 4)), Some(Vec2(4, 2)));
    assert_eq!(rt; add(Vec2(i32::MAX, 0), Vec2(1, 0)), None);
    assert_eq!(rt; sub(Vec2(0usize, 3), Vec2(0, 4)), None);
    assert_eq!(rt; neg(Vec2(0, i32::MIN)), None);
    assert_eq!(rt; neg(Vec2(5, i32::MAX)), Some(Vec2(-5, -2147483647)));
}

#[test]
fn areas_and_indices(rt: HostRuntime) {
    assert_eq!(rt; Vec2(46341i32, 46341).area(), None);
    assert_eq!(rt; Vec2(3i32, 2).flat_index_for_size(Vec2(4, 3)), Some(11));
    assert_eq!(rt; Vec2(4usize, 2).flat_index_for_size(Vec2(4, 3)), None);
    assert_eq!(rt; Vec2(-1i32, 0).flat_index_for_size(Vec2(1, 1)), None);
}

#[test]
fn coordinates(rt: HostRuntime) {
    let v = Vec2::from((1.5f32, -2.5f32));
    assert_eq!(rt; (v.x(), v.height()), (1.5, -2.5));
    let pair: (u8, u8) = Vec2(3, 4).into();
    assert_eq!(rt; pair, (3, 4));
    assert_eq!(rt; Vec2(3i32, -4).max(Vec2(-5, 6)), Vec2(3, 6));
    assert_eq!(rt; Vec2(3i32, -4).min(Vec2(-5, 6)), Vec2(-5, -4));
}
