// The normal matrix of a least-squares stencil and its inverse.
#![tactic(auto)]

ghost use Rattle.std.specs.Prelude.{◌≡◌};
ghost use Rattle.matrix.specs.Normal.{outer, all_finite, inverse2, inverse3, pivot, solve, inverse, columns, factored};

use vector::Vec3;

// The nine numbers of a matrix, row by row.
#[derive(Clone, Copy)]
pub struct Normal {
    pub xx: f64,
    pub xy: f64,
    pub xz: f64,
    pub yx: f64,
    pub yy: f64,
    pub yz: f64,
    pub zx: f64,
    pub zy: f64,
    pub zz: f64,
}

// The lower triangle of a factored matrix.
#[derive(Clone, Copy)]
struct Lower {
    pub a: f64,
    pub b: f64,
    pub c: f64,
    pub d: f64,
    pub e: f64,
    pub f: f64,
}

// The unit vectors.
const X: Vec3 = Vec3 {
    x: 1.0,
    y: 0.0,
    z: 0.0,
};

const Y: Vec3 = Vec3 {
    x: 0.0,
    y: 1.0,
    z: 0.0,
};

const Z: Vec3 = Vec3 {
    x: 0.0,
    y: 0.0,
    z: 1.0,
};

// n + a ⊗ b.
#[tactic(auto, unfolding(crate::specs::Normal::outer))]
pub fn add_outer(n: Normal, a: Vec3, b: Vec3) -> Normal
    ensures { result ≡ outer n a b }
{
    Normal {
        xx: n.xx + a.x * b.x,
        xy: n.xy + a.x * b.y,
        xz: n.xz + a.x * b.z,
        yx: n.yx + a.y * b.x,
        yy: n.yy + a.y * b.y,
        yz: n.yz + a.y * b.z,
        zx: n.zx + a.z * b.x,
        zy: n.zy + a.z * b.y,
        zz: n.zz + a.z * b.z,
    }
}

fn all_finite(n: Normal) -> bool
    ensures { result ≡ all_finite n }
{
    [n.xx, n.xy, n.xz, n.yx, n.yy, n.yz, n.zx, n.zy, n.zz]
        .iter()
        .all(|x| binary64::finite(*x))
}

#[tactic(auto, unfolding(crate::specs::Normal::inverse2))]
fn inverse_2d(n: Normal) -> Option<Normal>
    ensures { result ≡ inverse2 n }
{
    let determinant = n.xx * n.yy - n.xy * n.yx;
    let scale = binary64::max(binary64::max(binary64::abs(n.xx), binary64::abs(n.yy)), 1.0);
    if binary64::abs(determinant) <= binary64::EPSILON * scale * scale {
        return None;
    }
    Some(Normal {
        xx: n.yy / determinant,
        xy: -n.xy / determinant,
        xz: 0.0,
        yx: -n.yx / determinant,
        yy: n.xx / determinant,
        yz: 0.0,
        zx: 0.0,
        zy: 0.0,
        zz: 0.0,
    })
}

// The root of a pivot that is finite and above 64 EPS times the scale.
#[tactic(auto, unfolding(crate::specs::Normal::pivot))]
fn pivot_root(value: f64, scale: f64) -> Option<f64>
    ensures { result ≡ pivot value scale }
{
    if !binary64::finite(value) {
        return None;
    }
    if value <= 64.0 * binary64::EPSILON * scale {
        return None;
    }
    Some(binary64::sqrt(value))
}

// The column x with (l lᵀ) x = e: forward and back.
#[tactic(auto, unfolding(crate::specs::Normal::solve))]
fn solve_column(l: Lower, e: Vec3) -> Vec3
    ensures { result ≡ solve l e }
{
    let p = e.x / l.a;
    let q = (e.y - l.b * p) / l.c;
    let r = (e.z - l.d * p - l.e * q) / l.f;
    let z = r / l.f;
    let y = (q - l.e * z) / l.c;
    let x = (p - l.b * y - l.d * z) / l.a;
    Vec3 { x, y, z }
}

#[tactic(auto, unfolding(crate::specs::Normal::columns))]
fn three_columns(l: Lower) -> Normal
    ensures { result ≡ columns l }
{
    let u = solve_column(l, X);
    let v = solve_column(l, Y);
    let w = solve_column(l, Z);
    Normal {
        xx: u.x,
        xy: v.x,
        xz: w.x,
        yx: u.y,
        yy: v.y,
        yz: w.y,
        zx: u.z,
        zy: v.z,
        zz: w.z,
    }
}

// Cholesky's factors, row by row, and the inverse from them.
#[tactic(auto, unfolding(crate::specs::Normal::factored, crate::specs::Normal::with_root, crate::specs::Normal::lower_factor))]
fn factored_inverse(n: Normal, scale: f64) -> Option<Normal>
    ensures { result ≡ factored n scale }
{
    let a = pivot_root(n.xx, scale)?;
    let b = n.yx / a;
    let c = pivot_root(n.yy - b * b, scale)?;
    let d = n.zx / a;
    let e = (n.zy - d * b) / c;
    let f = pivot_root(n.zz - d * d - e * e, scale)?;
    Some(three_columns(Lower { a, b, c, d, e, f }))
}

#[tactic(auto, unfolding(crate::specs::Normal::inverse3))]
fn inverse_3d(n: Normal) -> Option<Normal>
    ensures { result ≡ inverse3 n }
{
    let scale = binary64::max(
        binary64::max(binary64::abs(n.xx), binary64::abs(n.yy)),
        binary64::abs(n.zz),
    );
    if !binary64::finite(scale) {
        return None;
    }
    if scale <= 0.0 {
        return None;
    }
    factored_inverse(n, scale)
}

// The inverse, by two dimensions or three; none where the matrix is singular or not finite.
#[tactic(auto, unfolding(crate::specs::Normal::inverse))]
pub fn inverse_normal_matrix(dimension: usize, n: Normal) -> Option<Normal>
    ensures { result ≡ inverse dimension n }
{
    if !all_finite(n) {
        return None;
    }
    if dimension == 2 {
        inverse_2d(n)
    } else {
        inverse_3d(n)
    }
}
