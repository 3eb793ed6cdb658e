// Vectors of three floats, in the Rust's order of float operations, and slices of them.
#![tactic(auto)]

ghost use Rattle.std.specs.Prelude.{◌≡◌};
ghost use Rattle.vector.specs.Vector.{dot, greater, longest, norm, norm_squared, sum, difference, negated, scaled, quotient};

pub mod inner;

// A record of three floats.
#[derive(Clone, Copy)]
pub struct Vec3 {
    pub x: f64,
    pub y: f64,
    pub z: f64,
}

// The larger of two numbers, by one comparison: `binary64::max` looks for a NaN besides.
#[tactic(auto, unfolding(crate::specs::Vector::greater))]
fn larger(a: f64, b: f64) -> f64
    ensures { result ≡ greater a b }
{
    if a < b { b } else { a }
}

impl Vec3 {
    #[tactic(auto, unfolding(crate::specs::Vector::dot))]
    pub fn dot(self, other: Vec3) -> f64
        ensures { result ≡ dot self other }
    {
        self.x * other.x + self.y * other.y + self.z * other.z
    }

    pub fn norm_squared(self) -> f64
        ensures { result ≡ norm_squared self }
    {
        self.dot(self)
    }

    // The largest of the components and of their negations: of a vector along an axis, or near one, it
    // is the length.
    #[tactic(auto, unfolding(crate::specs::Vector::longest))]
    pub fn longest(self) -> f64
        ensures { result ≡ longest self }
    {
        larger(
            larger(self.x, larger(self.y, self.z)),
            larger(-self.x, larger(-self.y, -self.z)),
        )
    }

    #[tactic(auto, unfolding(crate::specs::Vector::norm))]
    pub fn norm(self) -> f64
        ensures { result ≡ norm self }
    {
        binary64::sqrt_guessed(self.dot(self), self.longest())
    }

    #[tactic(auto, unfolding(crate::specs::Vector::sum))]
    pub fn add(self, other: Vec3) -> Vec3
        ensures { result ≡ sum self other }
    {
        Vec3 {
            x: self.x + other.x,
            y: self.y + other.y,
            z: self.z + other.z,
        }
    }

    #[tactic(auto, unfolding(crate::specs::Vector::difference))]
    pub fn sub(self, other: Vec3) -> Vec3
        ensures { result ≡ difference self other }
    {
        Vec3 {
            x: self.x - other.x,
            y: self.y - other.y,
            z: self.z - other.z,
        }
    }

    #[tactic(auto, unfolding(crate::specs::Vector::negated))]
    pub fn neg(self) -> Vec3
        ensures { result ≡ negated self }
    {
        Vec3 {
            x: -self.x,
            y: -self.y,
            z: -self.z,
        }
    }

    #[tactic(auto, unfolding(crate::specs::Vector::scaled))]
    pub fn scale(self, factor: f64) -> Vec3
        ensures { result ≡ scaled self factor }
    {
        Vec3 {
            x: self.x * factor,
            y: self.y * factor,
            z: self.z * factor,
        }
    }

    #[tactic(auto, unfolding(crate::specs::Vector::quotient))]
    pub fn div(self, divisor: f64) -> Vec3
        ensures { result ≡ quotient self divisor }
    {
        Vec3 {
            x: self.x / divisor,
            y: self.y / divisor,
            z: self.z / divisor,
        }
    }
}
