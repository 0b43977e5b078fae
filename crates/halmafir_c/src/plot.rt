// The text of `plot`, for C.
ghost use Rattle.std.specs.Prelude.{◌≡◌, ◌≤◌, length};
ghost use Rattle.std.proofs.lemmas.List.Edits.{sets};
ghost use Rattle.report.specs.Report.{report};

// Writes the text for the bytes of a file to the front of `out`, and gives how many bytes that takes, at most 50,000. Bytes past the end of
// `out` are passed over.
#[unsafe(no_mangle)]
pub extern "C" fn halmafir_report(input: &[u8], out: &mut [u8]) -> usize
    ensures out_after { out.new ≡ sets out.old 0 (report input.now) }
    ensures value { (result ≡ length (report input.now)) × (result ≤ 50000) }
{
    halmafir::plot::halmafir_report(input, out)
}
