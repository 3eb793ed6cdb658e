// One accepted call of each entry that is lent a mesh or its fields, and one for each refusal that it
// can give, by the refusals' numbers: the case's name, and its one change to the base.
// oracle/src/edges.rs has the same tables, and makes the expected lines from the Rust.
use crate::change::Change::{self, Dimension, Float, Length, Nothing, Number, Records, Whole};
use crate::change::Part::{
    Adjacency, Codes, Coefficients, Correction, Diagonal, Equations, Facing, Flux, Geometry,
    Gradient, Heads, Metrics, Outflow, Places, Pressure, Responses, Starts, Values, Velocity,
    Walls,
};

// Where x of cell 1's centre is 2^-26 from that of cell 0, and where it is 2^-25 from it.
const NEAR: f64 = 0.50000001490116119384765625;

const FARTHER: f64 = 0.5000000298023223876953125;

// Where y of face 3's centre is 2^-27 from that of cell 0.
const BESIDE: f64 = 0.499999992549419403076171875;

// `simple::momentum_inverse_diagonal`: 1, 2 and 11.
pub const DIAGONAL: &[(&str, Change)] = &[
    ("as it stands", Nothing),
    ("diagonal 2^-1074", Float(Diagonal, 0, 5.0e-324)),
    ("dimension 4", Dimension(4)),
    ("diagonal one short", Length(Diagonal, 1)),
    ("output one long", Length(Responses, 3)),
    ("diagonal 0", Float(Diagonal, 1, 0.0)),
];

// `stencil::least_squares_stencil`: 1 to 8 and 10, and 1 within arithmetic.
pub const STENCIL: &[(&str, Change)] = &[
    ("as it stands", Nothing),
    ("zero gradient at face 3", Whole(Codes, 6, 2)),
    ("room for 6 records", Records(6)),
    ("dimension 4", Dimension(4)),
    ("codes one short", Length(Codes, 13)),
    ("equations one short", Length(Equations, 13)),
    ("conditions of another mesh", Number(Codes, 8)),
    ("owner of face 3 missing", Whole(Adjacency, 6, 2)),
    ("code 3 at face 4", Whole(Codes, 8, 3)),
    ("first face of cell 1 missing", Whole(Heads, 2, 9)),
    ("link of face 4 to face 5", Whole(Codes, 9, 6)),
    ("room for 5 records", Records(5)),
    ("centre distance 2^-26", Float(Places, 4, NEAR)),
    ("centre of face 3 its cell's", Float(Geometry, 34, 0.5)),
    ("no faces of cell 0 but 0 and 1", Whole(Facing, 3, 0)),
    ("no condition at face 3", Whole(Codes, 6, 0)),
];

// `numerics::least_squares_gradient`: 1, 2, 3 and 5.
pub const GRADIENT: &[(&str, Change)] = &[
    ("as it stands", Nothing),
    ("dimension 4", Dimension(4)),
    ("pressure one short", Length(Pressure, 1)),
    ("stencil of another mesh", Number(Starts, 8)),
    ("pressure of another mesh", Number(Pressure, 8)),
    ("first equation of cell 1 missing", Whole(Starts, 1, 8)),
];

// `simple::pressure_face_coefficients`: 1 to 4, 7 and 9.
pub const COEFFICIENTS: &[(&str, Change)] = &[
    ("as it stands", Nothing),
    ("centre distance 2^-25", Float(Places, 4, FARTHER)),
    ("dimension 4", Dimension(4)),
    ("places one short", Length(Places, 7)),
    ("responses of another mesh", Number(Responses, 8)),
    ("owner of face 3 missing", Whole(Adjacency, 6, 2)),
    ("centre distance 2^-26", Float(Places, 4, NEAR)),
    ("response -1", Float(Responses, 0, -1.0)),
];

// `simple::pressure_face_coefficients_with_boundary`: 1 to 4, 6, 7 and 9.
pub const BOUNDARY: &[(&str, Change)] = &[
    ("as it stands", Nothing),
    (
        "centre of face 3 2^-27 from its cell's",
        Float(Geometry, 34, BESIDE),
    ),
    ("code 1 at linked face 1", Whole(Codes, 2, 1)),
    ("dimension 4", Dimension(4)),
    ("values one short", Length(Values, 27)),
    ("conditions of another mesh", Number(Codes, 8)),
    ("responses of another mesh", Number(Responses, 8)),
    ("code 3 at face 4", Whole(Codes, 8, 3)),
    ("link of face 4 to face 5", Whole(Codes, 9, 6)),
    ("centre distance 2^-26", Float(Places, 4, NEAR)),
    ("response -1", Float(Responses, 0, -1.0)),
    ("area of face 6 0", Float(Geometry, 70, 0.0)),
    ("centre of face 3 its cell's", Float(Geometry, 34, 0.5)),
];

// `simple::rhie_chow_predicted_flux`: 1 to 5, 7 and 9.
pub const PREDICTION: &[(&str, Change)] = &[
    ("as it stands", Nothing),
    ("dimension 4", Dimension(4)),
    ("walls one short", Length(Walls, 6)),
    ("velocity of another mesh", Number(Velocity, 8)),
    ("stencil of another mesh", Number(Starts, 8)),
    ("owner of face 3 missing", Whole(Adjacency, 6, 2)),
    ("first equation of cell 1 missing", Whole(Starts, 1, 8)),
    ("centre distance 2^-26", Float(Places, 4, NEAR)),
    ("response -1", Float(Responses, 0, -1.0)),
    ("area of face 0 1e308", Float(Geometry, 3, 1.0e308)),
];

// `simple::correct_face_flux_with_boundary`: 1 to 4, 6, 9 and 10.
pub const CORRECTION: &[(&str, Change)] = &[
    ("as it stands", Nothing),
    ("code 1 at linked face 1", Whole(Codes, 2, 1)),
    ("dimension 4", Dimension(4)),
    ("output one long", Length(Flux, 8)),
    ("conditions of another mesh", Number(Codes, 8)),
    ("correction of another mesh", Number(Correction, 8)),
    ("neighbour of face 0 its owner", Whole(Adjacency, 1, 1)),
    ("code 3 at face 4", Whole(Codes, 8, 3)),
    ("link of face 4 to face 5", Whole(Codes, 9, 6)),
    ("coefficient 0 at face 0", Float(Coefficients, 0, 0.0)),
    ("coefficient 0 at face 6", Float(Coefficients, 6, 0.0)),
    (
        "correction of cell 0 -1.7e308",
        Float(Correction, 0, -1.7e308),
    ),
    ("no condition at face 4", Whole(Codes, 8, 0)),
];

// `simple::correct_cell_velocity_from_gradient`: 1, 2, 3 and 11.
pub const VELOCITY: &[(&str, Change)] = &[
    ("as it stands", Nothing),
    ("dimension 4", Dimension(4)),
    ("gradient one short", Length(Gradient, 5)),
    ("gradient of another mesh", Number(Gradient, 8)),
    ("response 0", Float(Responses, 1, 0.0)),
    ("response 1.7e308", Float(Responses, 1, 1.7e308)),
];

// `numerics::integrated_divergence`: 1 to 4.
pub const OUTFLOW: &[(&str, Change)] = &[
    ("as it stands", Nothing),
    ("dimension 4", Dimension(4)),
    ("output one short", Length(Outflow, 1)),
    ("flux of another mesh", Number(Flux, 8)),
    ("neighbour of face 0 its owner", Whole(Adjacency, 1, 1)),
];

// `simple::continuity_metrics`: 1 to 4, 9 and 12.
pub const METRICS: &[(&str, Change)] = &[
    ("as it stands", Nothing),
    ("dimension 4", Dimension(4)),
    ("metrics one long", Length(Metrics, 3)),
    ("flux of another mesh", Number(Flux, 8)),
    ("neighbour of face 0 its owner", Whole(Adjacency, 1, 1)),
    ("flux of face 1 1.7e308", Float(Flux, 1, 1.7e308)),
    ("volume of cell 1 2^-1074", Float(Places, 7, 5.0e-324)),
    ("volume of cell 1 0", Float(Places, 7, 0.0)),
];

// `step::step`: 1 to 10 and 12, and 1 within arithmetic.
pub const STEP: &[(&str, Change)] = &[
    ("as it stands", Nothing),
    ("dimension 4", Dimension(4)),
    ("walls one short", Length(Walls, 6)),
    ("equations one short", Length(Equations, 13)),
    ("pressure of another mesh", Number(Pressure, 8)),
    ("owner of face 3 missing", Whole(Adjacency, 6, 2)),
    ("code 3 at face 4", Whole(Codes, 8, 3)),
    ("first neighbour of cell 1 missing", Whole(Heads, 3, 3)),
    ("link of face 4 to face 5", Whole(Codes, 9, 6)),
    ("room for 5 records", Records(5)),
    ("centre distance 2^-26", Float(Places, 4, NEAR)),
    ("no faces of cell 0 but 0 and 1", Whole(Facing, 3, 0)),
    ("no condition at face 3", Whole(Codes, 6, 0)),
    ("response -1", Float(Responses, 0, -1.0)),
    ("area of face 0 1e308", Float(Geometry, 3, 1.0e308)),
    ("area of face 6 0", Float(Geometry, 70, 0.0)),
    ("area of face 3 1e308", Float(Geometry, 37, -1.0e308)),
    ("wall flux of face 4 1.7e308", Float(Walls, 4, 1.7e308)),
    ("volume of cell 1 0", Float(Places, 7, 0.0)),
];
