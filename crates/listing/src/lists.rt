//! The whole list.

ghost use Rattle.std.specs.Prelude.{◌≡◌, ◌≤◌, length, IfOk, string_bytes, OnOk};
ghost use Rattle.source.specs.Recordings.{code_of};
ghost use Rattle.listing.specs.Printed.{Appended, Benched, Closed, Printed, Runs, Told, Tried, told_kind};

use crate::limits::cut_recording;
use crate::refusal::Refusal;
use format::Shown;
use kind::{Rate, Whole};
use load::load;
use reading::{Fault, FaultNumber, Reading};
use report::push_run;
use source::{Hold, Recorded, RecordedKind, Recording};
use std::alloc::{AllocError, Global};
use table::Table;
use text::Text;

/// What a cell holds before a run.
const UNREAD: Fault = Fault {
    number: FaultNumber::Unreached,
    row: 0,
    tick: 0,
};

/// The kind that a recording tells. One that tells none is tried as whole numbers, which refuses it.
fn told_kind(recording: &[u8]) -> RecordedKind
    ensures { result ≡ told_kind recording.now }
{
    match recording {
        [code, ..] => RecordedKind::try_from(*code).unwrap_or(RecordedKind::Whole),
        [] => RecordedKind::Whole,
    }
}

// Table, recording and text go along through the three below, and are no struct: each has other types or a work area
// beside them, and the two that call one another would take it apart at once.
/// Opens a recording of the kind K, and appends the list of the table's run over it, its gaps filled.
fn push_recorded<K: Recorded + Shown>(
    table: &Table,
    recording: &[u8],
    cells: &mut [Reading<K>],
    out: &mut Text,
) -> Result<(), Refusal>
    requires { table.now.schedule.size ≤ length cells.old }
    ensures { Tried (Runs K.Kind.meaning K.Shown.text K.Recorded.code table.now.schedule recording.now) out.old out.new result }
{
    let source = Hold::over(Recording::<K>::open(recording)?);
    push_run(table, &source, cells, out)?;
    Ok(())
}

/// Appends the line of a refusal, if there is one.
fn push_refusal(tried: Result<(), Refusal>, out: &mut Text)
    ensures { Closed tried out.old out.new }
{
    if let Err(refusal) = tried {
        refusal.push_to(out);
    }
}

/// Appends the list of a table over a recording of the kind K, or the line of a refusal.
fn push_list<K: Recorded + Shown + Clone>(
    heap: Global,
    table: &Table,
    recording: &[u8],
    out: &mut Text,
) -> Result<(), AllocError>
    ensures { OnOk result (Appended (Runs K.Kind.meaning K.Shown.text K.Recorded.code table.now.schedule recording.now) out.old out.new) }
{
    let mut cells = vec![in heap; Reading::<K>::Err(UNREAD); table.schedule.size]?;
    let tried = push_recorded(table, recording, &mut cells, out);
    push_refusal(tried, out);
    Ok(())
}

/// Appends the list of a table over a recording of either kind, or the line of a refusal.
fn push_table(
    heap: Global,
    table: &Table,
    recording: &[u8],
    out: &mut Text,
) -> Result<(), AllocError>
    ensures { OnOk result (Appended (Benched table.now.schedule recording.now) out.old out.new) }
{
    match told_kind(recording) {
        RecordedKind::Whole => push_list::<Whole>(heap, table, recording, out),
        RecordedKind::Rate => push_list::<Rate>(heap, table, recording, out),
    }
}

/// Appends the list of a text over a recording, or the line of the first refusal.
fn push_text(heap: Global, text: &[u8], recording: &[u8], out: &mut Text) -> Result<(), AllocError>
    ensures { OnOk result (Told text.now recording.now out.old out.new) }
{
    match load(text) {
        Ok(table) => push_table(heap, &table, recording, out),
        Err(refusal) => {
            Refusal::from(refusal).push_to(out);
            Ok(())
        }
    }
}

/// The list of a text over a recording, or the line of the first refusal. It fails only for want of memory.
pub fn list(heap: Global, text: &[u8], recording: &[u8]) -> Result<String, AllocError>
    ensures { IfOk result (λ s. Printed text.now recording.now (string_bytes s)) }
{
    let mut out = Text::new(heap);
    push_text(heap, text, cut_recording(recording), &mut out)?;
    out.finish()
}
