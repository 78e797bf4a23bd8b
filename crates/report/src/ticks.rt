//! The calls of a run that are listed.

ghost use Rattle.std.specs.Prelude.{◌≡◌, ℕ, Ok};
ghost use Rattle.engine.specs.Tells.{Stays, laid};
ghost use Rattle.report.specs.Reports.{lines_text};
ghost use Rattle.report.specs.Runs.{Going};
ghost use Rattle.text.specs.Pushed.{Pushed};
ghost use Rattle.theory.specs.Rule.{Sheet, Fits};

use engine::{Refusal, Run};
use format::{Line, Shown};
use kind::Kind;
use source::Source;
use text::Text;

/// Settles the stages, as many as are left.
pub(crate) fn settle_stages<K: Kind, S: Source<K>>(
    run: &mut Run<'_, '_, K>,
    source: &S,
    stages: u8,
) -> Result<(), Refusal>
    ensures stays { Stays run.old run.new }
    ensures goes { (H made : ℕ) → Going K.Kind.meaning (S.Source.meaning source.now).says run.old H stages made → (result ≡ Ok tt) × Going K.Kind.meaning (S.Source.meaning source.now).says run.new H 0 made }
{
    for _ in 0..stages {
        run.settle(source)?;
    }
    Ok(())
}

/// Makes the ticks below the horizon, and appends a line for each.
pub(crate) fn push_ticks<K: Kind + Shown, S: Source<K>>(
    run: &mut Run<'_, '_, K>,
    source: &S,
    horizon: u32,
    out: &mut Text,
) -> Result<(), Refusal>
    ensures { (σ : Sheet K) → Fits (laid run.old).rows K.Kind.meaning (S.Source.meaning source.now).says horizon σ → Going K.Kind.meaning (S.Source.meaning source.now).says run.old horizon 0 0 → (result ≡ Ok tt) × Pushed out.old out.new (lines_text K.Shown.text (σ (laid run.old).result) horizon) }
{
    for _ in 0..horizon {
        let (tick, reading) = run.step(source)?;
        Line { tick, reading }.push_to(out);
    }
    Ok(())
}
