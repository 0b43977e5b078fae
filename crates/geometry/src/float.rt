// Small operations on an f64 that the language lacks.
ghost use Rattle.std.specs.Prelude.{◌≡◌};
ghost use Rattle.geometry.specs.Float.{absolute, smaller};

// |x|, but that a zero keeps its sign.
// Kept by hand: `abs` takes a zero's sign, and so is another function.
pub fn absolute(x: f64) -> f64
    ensures { result ≡ absolute x }
{
    if x < 0.0 { -x } else { x }
}

// The smaller of a and b, and a where b is a NaN.
// Kept by hand: `min` gives b where a is a NaN, and so is another function.
pub fn smaller(a: f64, b: f64) -> f64
    ensures { result ≡ smaller a b }
{
    if b < a { b } else { a }
}
