// The framing of a run: sheets one after another, each preceded by its length.
ghost use Rattle.std.specs.Prelude.{◌≡◌};
ghost use Rattle.names.specs.Told.{told_end};
ghost use Rattle.runs.specs.Run.{frame_at, framing};
ghost use Rattle.runs.specs.inner.Framed.{told_frame};

use names::fault::{Fault, Refusal};
use names::reader::Reader;

// A run has at most so many bytes.
const MOST_BYTES: usize = 65536;

// Where a sheet starts and ends in a run.
#[derive(Clone, Copy)]
pub(crate) struct Frame {
    pub(crate) start: usize,
    pub(crate) end: usize,
}

// The sheet whose length stands at a place, or the fault of its length.
#[tactic(auto, unfolding(crate::specs::Run::frame_at))]
pub(crate) fn frame_at(run: &[u8], at: usize) -> Result<Frame, Fault>
    ensures { told_frame result ≡ frame_at run.now at }
{
    let mut reader = Reader { bytes: run, at };
    let len = reader.number()?;
    let next = reader.at;
    if run.len() - next < len {
        return Err(Refusal::EndsEarly.at(run.len()));
    }
    Ok(Frame {
        start: next,
        end: next + len,
    })
}

// The first fault of a run's framing: every length is judged before a sheet is read. The loop counts nothing: a sheet ends where the next length stands.
pub(crate) fn framing(run: &[u8]) -> Result<(), Fault>
    ensures { told_end result ≡ framing run.now }
{
    if MOST_BYTES < run.len() {
        return Err(Refusal::OutOfRange.at(0));
    }
    let mut at = 0;
    while at < run.len() {
        let frame = frame_at(run, at)?;
        at = frame.end;
    }
    Ok(())
}
