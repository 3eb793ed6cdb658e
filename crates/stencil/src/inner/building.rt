// A stencil as it is built: the equations of the cells as chained records.
ghost use Rattle.std.specs.Prelude.{◌≡◌, ◌+◌, ◌*◌, ◌^◌, ◌<◌, ◌≤◌, length};
ghost use Rattle.stencil.specs.Building.{source_number};

use crate::inner::cell::Offer;
use matrix::Normal;
use mesh::Answer;
use refusal::Reason;
use vector::Vec3;

// Where an equation's other value comes from: the cell itself, which is a zero normal derivative, the fixed
// value, or a cell.
#[derive(Clone, Copy)]
pub(crate) enum Source {
    Own,
    Fixed,
    Cell(usize),
}

// One equation: its source, the coefficient of the difference, and the fixed value.
#[derive(Clone, Copy)]
pub(crate) struct Equation {
    pub source: Source,
    pub coefficient: Vec3,
    pub value: f64,
    pub ghost fits: { source_number source < 2 ^ 64 },
}

// Room for so many records, those used so far, the normal matrix of the cell under way, and the slices that
// the records stand in: the caller's, since the engine has no heap.
#[derive(Drop)]
pub(crate) struct Building<'a> {
    pub records: usize,
    pub used: usize,
    pub normal: Normal,
    pub equations: &'a mut [usize],
    pub weights: &'a mut [f64],
    pub ghost sized: { (length equations.now ≡ 2 * records) × (length weights.now ≡ 4 * records) },
    pub ghost room: { used ≤ records },
}

impl Equation {
    ghost use Rattle.stencil.specs.Building.{record_numbers, record_weights};
    ghost use Rattle.stencil.specs.Bundles.{equation_in};

    // Its source as it is lent: of the equation, whose ghost field keeps that the number fits. A `From` takes the source
    // alone, with no room for that fact.
    #[inline(always)]
    fn source_number(self) -> usize
        ensures { result ≡ source_number self.source }
    {
        match self.source {
            Source::Own => 0,
            Source::Fixed => 1,
            Source::Cell(c) => c + 2,
        }
    }

    // Writes it as the record `used`: its chain goes on with the record after it. A `Building` lends its two slices
    // here, and has no part in what is written.
    #[inline(always)]
    #[tactic(auto, unfolding(crate::specs::Building::record_numbers, crate::specs::Building::record_weights))]
    fn put(self, used: usize, equations: &mut [usize], weights: &mut [f64])
        requires equations_room { 2 * used + 1 < length equations.old }
        requires weights_room { 4 * used + 3 < length weights.old }
        ensures equations_after { equations.new ≡ record_numbers equations.old used (equation_in self) }
        ensures weights_after { weights.new ≡ record_weights weights.old used (equation_in self) }
    {
        let a = 2 * used;
        let b = 4 * used;
        equations[a] = self.source_number();
        equations[a + 1] = used + 2;
        weights[b] = self.coefficient.x;
        weights[b + 1] = self.coefficient.y;
        weights[b + 2] = self.coefficient.z;
        weights[b + 3] = self.value;
    }
}

impl<'a> Building<'a> {
    ghost use Rattle.stencil.specs.Building.{building, push};
    ghost use Rattle.stencil.specs.Stencil.{ended_at};
    ghost use Rattle.stencil.specs.Cell.{Lendable, weighted, offered, add_normal};
    ghost use Rattle.stencil.specs.Bundles.{equation_in, building_in, course_of, SameRecords};

    // Appends an equation, if there is a record left for it.
    #[inline(always)]
    #[tactic(auto, unfolding(crate::specs::Building::push))]
    pub(crate) fn append(&mut self, e: Equation) -> Answer
        ensures appended { course_of result self.new ≡ push self.old.records (equation_in e) (building_in self.old) }
        ensures same { SameRecords self.old self.new }
    {
        if self.records <= self.used {
            return Err(Reason::BadSize.at(0));
        }
        e.put(self.used, self.equations, self.weights);
        self.used += 1;
        Ok(())
    }

    // The last record of a cell's chain ends it, where the cell has any: those used before it were `old`.
    #[inline(always)]
    #[tactic(auto, unfolding(crate::specs::Stencil::ended_at))]
    pub(crate) fn end_chain(&mut self, old: usize)
        ensures ended { let b = building_in self.old in
            building_in self.new ≡ building b.used (ended_at old b.used b.equations) b.weights b.normal }
        ensures same { SameRecords self.old self.new }
    {
        if old < self.used {
            self.equations[2 * self.used - 1] = 0;
        }
    }

    // The equation of a difference, weighted by the inverse square of its distance.
    #[inline(always)]
    #[tactic(auto, unfolding(crate::specs::Cell::weighted))]
    fn add_difference(&mut self, f: usize, source: Source, offset: Vec3, value: f64) -> Answer
        requires { source_number source < 2 ^ 64 }
        ensures added { let before = building_in self.old in
            course_of result self.new ≡ weighted self.old.records f (source_number source) offset value before }
        ensures same { SameRecords self.old self.new }
    {
        let squared = offset.norm_squared();
        if squared <= binary64::EPSILON {
            return Err(Reason::TooNear.at(f));
        }
        let coefficient = offset.scale(1.0 / squared);
        self.normal = matrix::add_outer(self.normal, coefficient, offset);
        self.append(Equation {
            source,
            coefficient,
            value,
        })
    }

    // What the face f gives, but for a closing normal.
    #[inline(always)]
    #[tactic(auto, unfolding(crate::specs::Cell::offered))]
    pub(crate) fn add_offer(&mut self, f: usize, offer: Offer) -> Answer
        requires { Lendable offer }
        ensures added { let before = building_in self.old in
            course_of result self.new ≡ offered self.old.records f offer before }
        ensures same { SameRecords self.old self.new }
    {
        match offer {
            Offer::Closing => Ok(()),
            Offer::Missing => Err(Reason::NoCondition.at(f)),
            Offer::Difference {
                source,
                offset,
                value,
            } => self.add_difference(f, source, offset, value),
        }
    }

    // A zero-gradient face's normal as an equation with coefficient 0, if it has a direction.
    #[inline(always)]
    #[tactic(auto, unfolding(crate::specs::Cell::add_normal))]
    pub(crate) fn add_normal(&mut self, normal: Vec3) -> Answer
        ensures added { course_of result self.new ≡ add_normal self.old.records normal (building_in self.old) }
        ensures same { SameRecords self.old self.new }
    {
        let length = normal.norm();
        if !binary64::far(length) {
            return Ok(());
        }
        let direction = normal.div(length);
        self.normal = matrix::add_outer(self.normal, direction, direction);
        self.append(Equation {
            source: Source::Own,
            coefficient: Vec3 {
                x: 0.0,
                y: 0.0,
                z: 0.0,
            },
            value: 0.0,
        })
    }
}
