// Why a mesh, a call or its outcome is refused: the rows of the table of numbers.
ghost use Rattle.std.specs.Prelude.{◌≡◌};
ghost use Rattle.mesh.specs.Refusal.{table_number};

#[derive(Clone, Copy, Debug, PartialEq, Eq)]
pub enum Refusal {
    // a count over its limit, or a slice too short
    Room = 10,
    // box, cells, passes, periodic bits or fields
    Settings = 11,
    // a coordinate or a parameter
    Vertex = 12,
    // a vertex number out of range or twice in an element
    Corner = 13,
    // two elements with the same four vertices
    Twice = 14,
    // a determinant not above 0
    Inverted = 15,
    // a face of three elements or more
    Crowded = 16,
    // a shared face with equal parities
    Parity = 17,
    // a nonmanifold vertex of the new surface
    Nonmanifold = 22,
    // faces of the boundary that the surface given has not
    Changed = 23,
}

impl From<Refusal> for u32 {
    ghost from_gives = { λ r n. n ≡ table_number r };

    // The number in the table.
    fn from(r: Refusal) -> u32 {
        r as u32
    }
}
