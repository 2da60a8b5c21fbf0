//! Vectors from pairs, and pairs from vectors.
ghost use Rattle.std.specs.Prelude.{◌≡◌};

use crate::Vec2;

/// The vector whose components are those of the pair.
impl<T> From<(T, T)> for Vec2<T> {
    ghost from_gives = { λ pair v. (v.0 ≡ pair.0) × (v.1 ≡ pair.1) };

    fn from(pair: (T, T)) -> Vec2<T> {
        let (x, y) = pair;
        Vec2(x, y)
    }
}

/// The pair of the vector's components.
impl<T> From<Vec2<T>> for (T, T) {
    ghost from_gives = { λ v pair. (pair.0 ≡ v.0) × (pair.1 ≡ v.1) };

    fn from(vec2: Vec2<T>) -> (T, T) {
        let Vec2(x, y) = vec2;
        (x, y)
    }
}
