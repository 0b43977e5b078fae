// The boundary of elements.
// Kept by hand: the C interface. `halmafir_boundary` takes the number of elements beside their buffer, and gives a number.
ghost use Rattle.std.specs.Prelude.{◌≡◌};
ghost use Rattle.mesh.specs.Surface.{boundary_call};
ghost use Rattle.halmafir.specs.Called.{Bounded, bounded};

// The sorted boundary of the first `count` elements, at the front of `surface`, with 0 returned and the number of its triples in `triples`;
// or a number of document 01's table returned, with 0 in `triples` and the surface as it was. The work is all zeros afterwards.
pub fn halmafir_boundary(
    elements: &[u32],
    count: usize,
    surface: &mut [u32],
    words: &mut [u32],
    triples: &mut usize,
) -> u32
    ensures { ◌≡◌ {A = Bounded} (record { number = result; triples = triples.new; surface = surface.new; words = words.new })
        (bounded (boundary_call count elements.now surface.old words.old)) }
{
    let found = mesh::boundary::boundary(elements, count, surface, words);
    match found {
        Ok(c) => {
            *triples = c;
            0
        }
        Err(refusal) => {
            *triples = 0;
            u32::from(refusal)
        }
    }
}
