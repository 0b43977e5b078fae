// The meshes of the trials.
ghost use Rattle.std.specs.Prelude.{◌≤◌};

// A mesh, and the lower end of its box in every direction.
#[derive(Clone, Copy)]
pub(crate) struct Mesh {
    pub points: &'static [[f64; 3]],
    pub elements: &'static [[u32; 4]],
    pub low: f64,
}

// A corner of side 1, and two more vertices on that side of the face 0 1 2.
static SIDE: [[f64; 3]; 6] = [
    [0.0, 0.0, 0.0],
    [1.0, 0.0, 0.0],
    [0.0, 1.0, 0.0],
    [0.0, 0.0, 1.0],
    [0.25, 0.25, 0.5],
    [0.25, 0.25, 1.0],
];

// Three elements on one side of the face 0 1 2.
static THREE: [[u32; 4]; 3] = [[0, 1, 2, 3], [0, 1, 2, 4], [0, 1, 2, 5]];

// Two corners that meet in vertex 0.
static TOUCHING: [[f64; 3]; 7] = [
    [0.0, 0.0, 0.0],
    [1.0, 0.0, 0.0],
    [0.0, 1.0, 0.0],
    [0.0, 0.0, 1.0],
    [-1.0, 0.0, 0.0],
    [0.0, -1.0, 0.0],
    [0.0, 0.0, -1.0],
];

// So many of the vertices on one side, and of the three elements there.
pub(crate) fn on_side(vertices: usize, elements: usize) -> Mesh
    requires { (vertices ≤ 6) × (elements ≤ 3) }
{
    Mesh {
        points: &SIDE[..vertices],
        elements: &THREE[..elements],
        low: 0.0,
    }
}

// The first element of the corner.
pub(crate) fn corner() -> Mesh {
    on_side(4, 1)
}

// The meshes that `blocks` lists, in their order.
pub(crate) fn all() -> [Mesh; 7] {
    [
        corner(),
        on_side(0, 0),
        Mesh {
            elements: &[[0, 1, 3, 2]],
            ..corner()
        },
        Mesh {
            elements: &[[0, 1, 2, 3], [1, 2, 0, 3]],
            ..corner()
        },
        on_side(6, 3),
        on_side(5, 2),
        Mesh {
            points: &TOUCHING,
            elements: &[[0, 1, 2, 3], [0, 4, 6, 5]],
            low: -1.0,
        },
    ]
}
