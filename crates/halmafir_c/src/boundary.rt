// The boundary of elements, for C.
// Kept by hand: the C interface.
ghost use Rattle.std.specs.Prelude.{◌≡◌};
ghost use Rattle.mesh.specs.Surface.{boundary_call};
ghost use Rattle.halmafir.specs.Called.{Bounded, bounded};

// The sorted boundary of the first `count` elements, at the front of `surface`, with 0 returned and the number of its triples in `triples`;
// or a number of document 01's table returned, with 0 in `triples` and the surface as it was. The work is all zeros afterwards.
#[unsafe(no_mangle)]
pub extern "C" fn halmafir_boundary(
    elements: &[u32],
    count: usize,
    surface: &mut [u32],
    words: &mut [u32],
    triples: &mut usize,
) -> u32
    ensures { ◌≡◌ {A = Bounded} (record { number = result; triples = triples.new; surface = surface.new; words = words.new })
        (bounded (boundary_call count elements.now surface.old words.old)) }
{
    halmafir::boundary::halmafir_boundary(elements, count, surface, words, triples)
}
