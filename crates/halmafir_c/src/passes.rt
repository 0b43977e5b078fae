// The passes on a mesh in its buffers, for C: src/passes.rt of crate halmafir says what the arrays hold.
// Kept by hand: the C interface; all three functions.
ghost use Rattle.std.specs.Prelude.{◌≡◌, not, eqb};
ghost use Rattle.std.proofs.Math.Option.{none};
ghost use Rattle.repair.specs.Step.{Pass, call_of, held, regions_of};
ghost use Rattle.halmafir.specs.Arrays.{fields_of, sizes_of, settings_of};
ghost use Rattle.halmafir.specs.Called.{Returned, called};

// `improve`: collapses short edges of badly shaped elements. The count is that of the vertices replaced.
#[unsafe(no_mangle)]
pub extern "C" fn halmafir_improve(
    parameters: &mut [f64],
    points: &mut [f64],
    masks: &mut [u32],
    elements: &mut [u32],
    surface: &mut [u32],
    sizes: &[usize; 3],
    settings: &[u32; 14],
    numbers: &[f64; 38],
    words: &mut [u32],
    floats: &mut [f64],
    res: &mut [usize; 4],
) -> u32
    ensures { ◌≡◌ {A = Returned}
        (record { number = result; result = res.new; parameters = parameters.new; points = points.new; masks = masks.new; elements = elements.new; surface = surface.new; words = words.new; floats = floats.new })
        (called (call_of Pass.improve (settings_of sizes.now settings.now numbers.now) (fields_of settings.now numbers.now) none words.old floats.old)
        (held (sizes_of sizes.now) parameters.old points.old masks.old elements.old surface.old)) }
{
    halmafir::passes::halmafir_improve(
        parameters, points, masks, elements, surface, sizes, settings, numbers, words, floats, res,
    )
}

// `smooth`: moves vertices of badly shaped elements. The count is that of the vertices moved. `listed` is 0 where there is no list of
// regions, which is not the same as an empty list, and any other number where `regions` is the list.
#[unsafe(no_mangle)]
pub extern "C" fn halmafir_smooth(
    parameters: &mut [f64],
    points: &mut [f64],
    masks: &[u32],
    elements: &[u32],
    surface: &[u32],
    sizes: &[usize; 3],
    settings: &[u32; 14],
    numbers: &[f64; 38],
    listed: u32,
    regions: &[u32],
    words: &mut [u32],
    floats: &mut [f64],
    res: &mut [usize; 4],
) -> u32
    ensures { ◌≡◌ {A = Returned}
        (record { number = result; result = res.new; parameters = parameters.new; points = points.new; masks = masks.now; elements = elements.now; surface = surface.now; words = words.new; floats = floats.new })
        (called (call_of Pass.smooth (settings_of sizes.now settings.now numbers.now) (fields_of settings.now numbers.now) (regions_of (not (eqb listed 0)) regions.now) words.old floats.old)
        (held (sizes_of sizes.now) parameters.old points.old masks.now elements.now surface.now)) }
{
    halmafir::passes::halmafir_smooth(
        parameters, points, masks, elements, surface, sizes, settings, numbers, listed, regions,
        words, floats, res,
    )
}

// `flip`: reconnects badly shaped elements. The count is that of the flips made.
#[unsafe(no_mangle)]
pub extern "C" fn halmafir_flip(
    parameters: &[f64],
    points: &[f64],
    masks: &[u32],
    elements: &mut [u32],
    surface: &mut [u32],
    sizes: &[usize; 3],
    settings: &[u32; 14],
    numbers: &[f64; 38],
    words: &mut [u32],
    floats: &mut [f64],
    res: &mut [usize; 4],
) -> u32
    ensures { ◌≡◌ {A = Returned}
        (record { number = result; result = res.new; parameters = parameters.now; points = points.now; masks = masks.now; elements = elements.new; surface = surface.new; words = words.new; floats = floats.new })
        (called (call_of Pass.flip (settings_of sizes.now settings.now numbers.now) (fields_of settings.now numbers.now) none words.old floats.old)
        (held (sizes_of sizes.now) parameters.now points.now masks.now elements.old surface.old)) }
{
    halmafir::passes::halmafir_flip(
        parameters, points, masks, elements, surface, sizes, settings, numbers, words, floats, res,
    )
}
