// Vectors read and written, for callers that know that there is room.
ghost use Rattle.std.specs.Prelude.{◌≡◌, ◌+◌, ◌*◌, ◌<◌, length};
ghost use Rattle.vector.specs.Vector.{vector_at, put_vector, add_vector};

use crate::Vec3;

// The three numbers from the place b on.
pub fn vector_at(s: &[f64], b: usize) -> Vec3
    requires { b + 2 < length s.now }
    ensures { result ≡ vector_at s.now b }
{
    Vec3 {
        x: s[b],
        y: s[b + 1],
        z: s[b + 2],
    }
}

// Writes the vector i of a slice of three numbers each, number by number, as its definition sets them.
pub fn put_vector(out: &mut [f64], i: usize, v: Vec3)
    requires { 3 * i + 2 < length out.old }
    ensures { out.new ≡ put_vector out.old i v }
{
    let b = 3 * i;
    out[b] = v.x;
    out[b + 1] = v.y;
    out[b + 2] = v.z;
}

// Adds to the vector i of such a slice.
pub fn add_vector(out: &mut [f64], i: usize, v: Vec3)
    requires { 3 * i + 2 < length out.old }
    ensures { out.new ≡ add_vector out.old i v }
{
    let sum = vector_at(out, 3 * i).add(v);
    put_vector(out, i, sum);
}
