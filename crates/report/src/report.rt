// The whole text that `plot` prints for the bytes of a file.
ghost use Rattle.std.specs.Prelude.{◌≡◌, ◌≤◌, length};
ghost use Rattle.std.proofs.lemmas.List.Edits.{sets};
ghost use Rattle.report.specs.Block.{reading_number, plot_in, read};
ghost use Rattle.report.specs.Report.{text_of, report};
ghost use Rattle.report.specs.inside.Written.{Written};

use crate::buffers::Buffers;
use crate::bytes::word;
use crate::format::COUNT_PLACE;
use crate::header::{check, fields, options};
use crate::text::refused_text;
use mesh::intake::Settings;

// Writes what is printed for a file that is read.
fn plot_text(s: &[u8], out: &mut [u8]) -> usize
    requires { reading_number s.now ≡ 0 }
    ensures { Written out.old out.new 0 result (text_of (read (plot_in s.now))) × (result ≤ 50000) }
{
    let mut buffers = Buffers::new();
    let settings = Settings {
        sizes: buffers.read_plot(s),
        options: options(s),
        count: word(s, COUNT_PLACE),
    };
    let all = fields(s);
    let ran = buffers.run_passes(settings, all);
    buffers.print_run(out, ran, &all[..settings.count as usize])
}

// Writes what `plot` prints for the bytes of a file to the front of `out`, and gives how many bytes that takes, at most 50,000. Bytes past
// the end of `out` are passed over.
pub fn report(input: &[u8], out: &mut [u8]) -> usize
    ensures out_after { out.new ≡ sets out.old 0 (report input.now) }
    ensures value { (result ≡ length (report input.now)) × (result ≤ 50000) }
{
    match check(input) {
        Ok(()) => plot_text(input, out),
        Err(error) => refused_text(out, u32::from(error) as usize),
    }
}
