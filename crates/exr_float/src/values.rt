//! Values made of floats, by their bits and as the floats.
ghost use Rattle.std.specs.Prelude.{◌≡◌};
ghost use Rattle.exr_float.specs.Elements.{pair_by, triple_by};

use exr_vec2::Vec2;

// Not `From`: for pairs and triples its impl belongs to other crates, and for a
// word's float it overlaps that of each type for itself.
/// A value made of the bits of floats.
pub trait OfFloats: Copy {
    /// The same value made of the floats.
    type Floats: Copy;

    // one by the other
    ghost bits_of: { Self.Floats → Self };

    ghost floats_of: { Self → Self.Floats };

    /// The bits of its floats.
    fn from_floats(floats: Self::Floats) -> Self
        ensures bits { result ≡ bits_of floats }
        ensures back { floats_of result ≡ floats };

    /// The floats that have these bits.
    fn to_floats(self) -> Self::Floats
        ensures { result ≡ floats_of self };
}

// A pair and a triple have an impl each, since no bound covers a struct and a
// tuple; each goes through its elements' own.
impl<T: OfFloats> OfFloats for Vec2<T> {
    type Floats = Vec2<T::Floats>;

    ghost bits_of = { pair_by T.bits_of };

    ghost floats_of = { pair_by T.floats_of };

    fn from_floats(pair: Vec2<T::Floats>) -> Vec2<T> {
        Vec2(T::from_floats(pair.0), T::from_floats(pair.1))
    }

    fn to_floats(self) -> Vec2<T::Floats> {
        Vec2(self.0.to_floats(), self.1.to_floats())
    }
}

impl<T: OfFloats> OfFloats for (T, T, T) {
    type Floats = (T::Floats, T::Floats, T::Floats);

    ghost bits_of = { triple_by T.bits_of };

    ghost floats_of = { triple_by T.floats_of };

    fn from_floats(triple: (T::Floats, T::Floats, T::Floats)) -> (T, T, T) {
        let (x, y, z) = triple;
        (T::from_floats(x), T::from_floats(y), T::from_floats(z))
    }

    fn to_floats(self) -> (T::Floats, T::Floats, T::Floats) {
        let (x, y, z) = self;
        (x.to_floats(), y.to_floats(), z.to_floats())
    }
}
