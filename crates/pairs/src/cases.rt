// The cases: their names, and their changes. oracle/src/pairs.rs has the same, in the same order and by the same names.
use crate::change::Change::{self, Code, Float, Length, Number, Record, Refilled};
use crate::change::Part::{
    Correction, Geometry, Places, Pressure, Responses, Values, Velocity, Walls,
};

// A velocity of cell 0 with which a linked face of a huge area is endless: the flux that is predicted there is not
// finite.
const FAST: Change = Float(Velocity, 0, 1.0e10);

const FAST_Y: Change = Float(Velocity, 1, 1.0e10);

const ENDLESS_2: Change = Float(Geometry, 25, -1.0e300);

const ENDLESS_3: Change = Float(Geometry, 36, 1.0e300);

const ENDLESS_4: Change = Float(Geometry, 48, -1.0e300);

const ENDLESS_5: Change = Float(Geometry, 59, 1.0e300);

// Face 1 in no chain.
const APART: Change = Record(11, 8);

// The correction of cell 0 with which the flux of face 0 is not finite, where that of cell 1 is as large the other way.
const LOW: Change = Float(Correction, 0, -1.7e308);

const HIGH: Change = Float(Correction, 1, 1.7e308);

// Pressures and fixed values with which no gradient is other than 0.
const EVEN_0: Change = Float(Pressure, 0, 0.0);

const EVEN_1: Change = Float(Pressure, 1, 0.0);

const EVEN_2: Change = Float(Values, 4, 0.0);

const EVEN_3: Change = Float(Values, 24, 0.0);

pub const CASES: &[(&str, &[Change])] = &[
    ("as it stands", &[]),
    // wall fluxes
    ("wall flux of face 2 a NaN", &[Float(Walls, 2, f64::NAN)]),
    ("wall flux of face 3 a NaN", &[Float(Walls, 3, f64::NAN)]),
    (
        "wall flux of face 2 infinite",
        &[Float(Walls, 2, f64::INFINITY)],
    ),
    (
        "wall flux of face 3 -infinite",
        &[Float(Walls, 3, f64::NEG_INFINITY)],
    ),
    (
        "wall flux of face 4 1.7e308, of face 5 1.7e308",
        &[Float(Walls, 4, 1.7e308), Float(Walls, 5, 1.7e308)],
    ),
    ("wall flux of face 8 a NaN", &[Float(Walls, 8, f64::NAN)]),
    ("wall flux of face 6 a NaN", &[Float(Walls, 6, f64::NAN)]),
    ("wall flux of face 7 a NaN", &[Float(Walls, 7, f64::NAN)]),
    // predictions that are not finite
    ("face 2 endless", &[FAST, ENDLESS_2]),
    ("face 3 endless", &[FAST, ENDLESS_3]),
    ("faces 2 and 3 endless", &[FAST, ENDLESS_2, ENDLESS_3]),
    ("face 4 endless", &[FAST_Y, ENDLESS_4]),
    ("face 5 endless", &[FAST_Y, ENDLESS_5]),
    ("faces 4 and 5 endless", &[FAST_Y, ENDLESS_4, ENDLESS_5]),
    (
        "faces 2 and 4 endless",
        &[FAST, FAST_Y, ENDLESS_2, ENDLESS_4],
    ),
    (
        "faces 3 and 4 endless",
        &[FAST, FAST_Y, ENDLESS_3, ENDLESS_4],
    ),
    (
        "prediction of face 3 a NaN",
        &[FAST, FAST_Y, ENDLESS_3, Float(Geometry, 37, -1.0e299)],
    ),
    ("area of face 2 -1e150", &[Float(Geometry, 25, -1.0e150)]),
    ("area of face 3 1e150", &[Float(Geometry, 36, 1.0e150)]),
    // what comes before 9 of a linked face
    (
        "face 2 endless, walls of another mesh",
        &[FAST, ENDLESS_2, Number(8)],
    ),
    (
        "face 2 endless, walls one short",
        &[FAST, ENDLESS_2, Length(8)],
    ),
    (
        "face 2 endless, link of face 4 to face 3",
        &[FAST, ENDLESS_2, Code(9, 4)],
    ),
    (
        "face 2 endless, no condition at face 1",
        &[FAST, ENDLESS_2, Code(2, 0)],
    ),
    (
        "face 2 endless, area of face 8 1e300",
        &[FAST, ENDLESS_2, Float(Geometry, 91, -1.0e300)],
    ),
    (
        "face 2 endless, area of face 6 0",
        &[
            FAST,
            ENDLESS_2,
            Float(Geometry, 69, 0.0),
            Float(Geometry, 70, 0.0),
            Float(Geometry, 71, 0.0),
        ],
    ),
    (
        "face 2 endless, area of face 3 the other way",
        &[FAST, ENDLESS_2, Float(Geometry, 36, -1.1)],
    ),
    // what comes after it
    ("face 1 in no chain", &[APART]),
    (
        "face 1 in no chain, no condition there",
        &[APART, Code(2, 0)],
    ),
    (
        "face 1 in no chain, no condition there, face 3 endless",
        &[APART, Code(2, 0), FAST, ENDLESS_3],
    ),
    ("correction without end at face 0", &[LOW, HIGH]),
    (
        "correction without end at face 0, face 3 endless",
        &[LOW, HIGH, FAST, ENDLESS_3],
    ),
    ("volume of cell 1 0", &[Float(Places, 7, 0.0)]),
    (
        "volume of cell 1 0, face 5 endless",
        &[Float(Places, 7, 0.0), FAST_Y, ENDLESS_5],
    ),
    // coefficients, conditions, links
    ("responses equal", &[Float(Responses, 1, 0.7)]),
    (
        "responses 0.5",
        &[Float(Responses, 0, 0.5), Float(Responses, 1, 0.5)],
    ),
    (
        "responses 0.5, wall fluxes of faces 2 and 3 NaNs",
        &[
            Float(Responses, 0, 0.5),
            Float(Responses, 1, 0.5),
            Float(Walls, 2, f64::NAN),
            Float(Walls, 3, f64::NAN),
        ],
    ),
    (
        "fixed value a NaN at face 2",
        &[Code(4, 1), Float(Values, 8, f64::NAN)],
    ),
    ("zero gradient at face 3", &[Code(6, 2)]),
    ("no condition at faces 4 and 5", &[Code(8, 0), Code(10, 0)]),
    (
        "translation of face 3 a little off",
        &[Float(Values, 13, -2.75)],
    ),
    (
        "faces 2 and 5, 3 and 4 linked, distances made anew",
        &[Code(5, 6), Code(11, 3), Code(7, 5), Code(9, 4), Refilled],
    ),
    (
        "links gone, distances made anew",
        &[
            Code(5, 0),
            Code(7, 0),
            Code(9, 0),
            Code(11, 0),
            Code(4, 2),
            Code(6, 2),
            Refilled,
        ],
    ),
    // predictions that are zeros
    (
        "velocities 0, pressures and fixed values 0",
        &[
            EVEN_0,
            EVEN_1,
            EVEN_2,
            EVEN_3,
            Float(Velocity, 0, 0.0),
            Float(Velocity, 1, 0.0),
            Float(Velocity, 2, 0.0),
            Float(Velocity, 3, 0.0),
            Float(Velocity, 4, 0.0),
            Float(Velocity, 5, 0.0),
        ],
    ),
    (
        "velocities -0, pressures and fixed values 0",
        &[
            EVEN_0,
            EVEN_1,
            EVEN_2,
            EVEN_3,
            Float(Velocity, 0, -0.0),
            Float(Velocity, 1, -0.0),
            Float(Velocity, 2, -0.0),
            Float(Velocity, 3, -0.0),
            Float(Velocity, 4, -0.0),
            Float(Velocity, 5, -0.0),
        ],
    ),
];
