// The gradient of each cell from a stencil.
ghost use Rattle.std.specs.Prelude.{◌≡◌, ◌+◌, ◌*◌, ◌-◌, ◌<◌, length, get_or};
ghost use Rattle.numerics.specs.Bundles.{slices_of};
ghost use Rattle.numerics.specs.Gradient.{Sloped, source_value, add_term, right_side, product, gradient_at, gradients};

use crate::Stencil;
use vector::Vec3;

// A stencil and a cell field that passed the checks.
#[derive(Clone, Copy)]
pub struct Slope<'a> {
    pub stencil: Stencil<'a>,
    pub field: &'a [f64],
    pub ghost sloped: { Sloped (slices_of stencil) stencil.records field.now },
}

// The other value of an equation. Its source is lent as a number: 0 for the cell's own value, 1 for the
// equation's, c + 2 for that of the cell c.
#[tactic(auto, unfolding(crate::specs::Gradient::source_value))]
fn source_value(field: &[f64], own: f64, source: usize, value: f64) -> f64
    requires { source < length field.now + 2 }
    ensures { result ≡ source_value field.now own source value }
{
    // one test finds a cell: a `match` on the number, or on `checked_sub`, took a tenth more time
    if source < 2 {
        return if source == 0 { own } else { value };
    }
    field[source - 2]
}

// The rows of the inverse of the cell c, times a vector.
#[tactic(auto, unfolding(crate::specs::Gradient::product))]
fn times_inverse(inverses: &[f64], c: usize, v: Vec3) -> Vec3
    requires { 9 * c + 8 < length inverses.now }
    ensures { result ≡ product inverses.now c v }
{
    let b = 9 * c;
    Vec3 {
        x: vector::inner::vector_at(inverses, b).dot(v),
        y: vector::inner::vector_at(inverses, b + 3).dot(v),
        z: vector::inner::vector_at(inverses, b + 6).dot(v),
    }
}

impl<'a> Slope<'a> {
    // The right side with the term of the record r.
    #[tactic(auto, unfolding(crate::specs::Gradient::add_term))]
    fn add_term(&self, own: f64, r: usize, right: Vec3) -> Vec3
        requires r_nonzero { let e = self.now.stencil.equations.now in
            (0 < r) × (2 * r < length e + 1) × (get_or e (2 * (r - 1)) 0 < length self.now.field.now + 2) }
        ensures sums { result ≡ add_term (slices_of self.now.stencil) self.now.field.now own r right }
    {
        let b = 4 * (r - 1);
        let source = chain::inner::first_of(self.stencil.equations, r - 1);
        let other = source_value(self.field, own, source, self.stencil.weights[b + 3]);
        let coefficient = vector::inner::vector_at(self.stencil.weights, b);
        right.add(coefficient.scale(other - own))
    }

    // The right side of the cell c. The next record is read and not counted, so the outer loop is a `while`; it is kept
    // as it is lent, 0 for none.
    fn right_side(&self, c: usize) -> Vec3
        requires c_in_bounds { c < length self.now.field.now }
        ensures sums { let s = self.now.stencil in
            result ≡ right_side (slices_of s) s.records self.now.field.now c }
    {
        let equations = self.stencil.equations;
        let own = self.field[c];
        let mut right = Vec3 {
            x: 0.0,
            y: 0.0,
            z: 0.0,
        };
        let mut r = self.stencil.starts[c];
        while r != 0 {
            // the records of a cell mostly follow one another: so the next is known before it is read; one `for`
            // over both loops took a tenth to a quarter more time
            let next = r + 1;
            right = self.add_term(own, r, right);
            r = chain::inner::second_of(equations, r - 1);
            for here in next..usize::MAX {
                if r != here {
                    break;
                }
                right = self.add_term(own, here, right);
                r = chain::inner::second_of(equations, here - 1);
            }
        }
        right
    }

    // The gradient of the cell c.
    #[tactic(auto, unfolding(crate::specs::Gradient::gradient_at))]
    pub fn gradient_at(&self, c: usize) -> Vec3
        requires { c < length self.now.field.now }
        ensures sums { let s = self.now.stencil in
            result ≡ gradient_at (slices_of s) s.records self.now.field.now c }
    {
        let right = self.right_side(c);
        times_inverse(self.stencil.inverses, c, right)
    }

    // The gradients of all cells, three numbers each.
    #[tactic(auto, using(vector::proofs::Vectors::finish), unfolding(crate::specs::Gradient::gradients))]
    pub fn least_squares_gradient(&self, out: &mut [f64])
        requires out_len { length out.old ≡ 3 * length self.now.field.now }
        ensures sums { let s = self.now.stencil in
            let x = self.now.field.now in
            out.new ≡ gradients (slices_of s) s.records x (length x) }
    {
        for c in 0..self.field.len() {
            let gradient = self.gradient_at(c);
            vector::inner::put_vector(out, c, gradient);
        }
    }
}
