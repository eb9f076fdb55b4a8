// A sheet of a run by its number: where it stands, for a C host that does not read the lengths itself.
ghost use Rattle.std.specs.Prelude.{◌≡◌};
ghost use Rattle.runs.specs.Numbered.{run_sheet_shown};

use crate::framing::{frame_at, framing};

/// Where the sheet with a number starts in the lent run and how long it is, in the two halves of one number for the C host, or 0. A refused run has no sheets.
/// The loop goes from length to length: a sheet ends where the next length stands.
pub fn dv_run_sheet(run: &[u8], number: usize) -> u64
    ensures { result ≡ run_sheet_shown run.now number }
{
    if framing(run).is_err() {
        return 0;
    }
    let mut at = 0;
    let mut before = number;
    while at < run.len() {
        let f = frame_at(run, at).unwrap();
        if before == 0 {
            return f.start as u64 + 4294967296 * ((f.end - f.start) as u64);
        }
        before -= 1;
        at = f.end;
    }
    0
}
