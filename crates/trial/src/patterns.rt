// Floats by their patterns of 64 bits.
use geometry::point::Point;
use geometry::word::from_words;
use mesh::words::{high_half, low_half};

// The float of a pattern.
pub(crate) fn float_of(pattern: u64) -> f64 {
    from_words(low_half(pattern), high_half(pattern))
}

// The point of three patterns.
pub(crate) fn point_of([x, y, z]: [u64; 3]) -> Point {
    Point {
        x: float_of(x),
        y: float_of(y),
        z: float_of(z),
    }
}
