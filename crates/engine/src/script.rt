//! Whole scripts of calls.

ghost use Rattle.std.specs.Prelude.{◌≡◌, [], length, IfOk, vec_len};
ghost use Rattle.kind.specs.Kinds.{Meaning};
ghost use Rattle.theory.specs.Says.{Says};
ghost use Rattle.table.specs.Tables.{layout};
ghost use Rattle.engine.specs.Law.{AllRight};
ghost use Rattle.engine.specs.Tells.{Tells, Lawful, Stays};

use crate::calls::{Answer, Call, Reply};
use crate::run::Run;
use kind::Kind;
use reading::Reading;
use source::Source;
use std::alloc::{AllocError, Global};
use table::Table;

impl<'t, 'c, V: Kind> Run<'t, 'c, V> {
    /// A run over a checked table and cells, with no horizon in force. The cells may hold anything.
    pub fn new(table: &'t Table, cells: &'c mut [Reading<V>]) -> Run<'t, 'c, V>
        ensures table { result.table ≡ table.entry }
        ensures cells { result.cells ≡ cells.entry }
        ensures tells { (k : Meaning V) (says : Says V) → Tells k says result [] }
    {
        Run {
            table,
            cells,
            progress: None,
        }
    }

    /// Makes one call.
    pub fn make<S: Source<V>>(&mut self, source: &S, call: Call) -> Reply<V>
        ensures stays { Stays self.old self.new }
        ensures law { Lawful V.Kind.meaning (S.Source.meaning source.now).says self.old self.new call result }
    {
        match call {
            Call::Open(horizon) => Ok(Answer::Stages(self.open(horizon)?)),
            Call::Settle => Ok(Answer::Left(self.settle(source)?)),
            Call::Step => {
                let (tick, reading) = self.step(source)?;
                Ok(Answer::Made(tick, reading))
            }
            Call::Look(row, tick) => Ok(Answer::Seen(self.look(row, tick)?)),
            Call::Restart => {
                self.restart()?;
                Ok(Answer::Restarted)
            }
        }
    }
}

/// Makes a list of calls on a new run, and answers the reply to each of them.
pub fn replay<V: Kind, S: Source<V>>(
    heap: Global,
    table: &Table,
    source: &S,
    cells: &mut [Reading<V>],
    calls: &[Call],
) -> Result<Vec<Reply<V>>, AllocError>
    ensures { IfOk result (λ v. (vec_len v ≡ length calls.now) × AllRight (layout table.now.schedule) V.Kind.meaning (S.Source.meaning source.now).says (length cells.old) calls.now v.items (length calls.now)) }
{
    let mut run = Run::new(table, cells);
    let mut replies = Vec::new(heap);
    for call in calls {
        replies.push(run.make(source, *call))?;
    }
    Ok(replies)
}
