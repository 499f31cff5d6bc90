//! Copies of what owns memory.
ghost use Rattle.std.specs.Prelude.{◌≡◌, IfOk};

use crate::{Aggregation, Feed, Instrument, NameRule, View};
use attr_kit::{NoMemory, TryCopy, Txt};

impl TryCopy for Instrument {
    fn try_copy(&self) -> Result<Instrument, NoMemory> {
        Ok(Instrument {
            scope: self.scope.try_copy()?,
            name: self.name.try_copy()?,
            unit: self.unit.try_copy()?,
            kind: self.kind,
        })
    }
}

impl TryCopy for NameRule {
    fn try_copy(&self) -> Result<NameRule, NoMemory> {
        Ok(match self {
            NameRule::Exact(name) => NameRule::Exact(name.try_copy()?),
            NameRule::Every => NameRule::Every,
        })
    }
}

impl TryCopy for Aggregation {
    fn try_copy(&self) -> Result<Aggregation, NoMemory> {
        Ok(match self {
            Aggregation::Default => Aggregation::Default,
            Aggregation::Sum => Aggregation::Sum,
            Aggregation::LastValue => Aggregation::LastValue,
            Aggregation::Buckets(bounds) => Aggregation::Buckets(bounds.try_copy()?),
            Aggregation::Drop => Aggregation::Drop,
        })
    }
}

// A copy of a text that may be absent.
fn copy_text(text: &Option<Txt>) -> Result<Option<Txt>, NoMemory>
    ensures { IfOk result (λ copy. copy ≡ text.now) }
{
    Ok(match text {
        Some(text) => Some(text.try_copy()?),
        None => None,
    })
}

impl TryCopy for View {
    fn try_copy(&self) -> Result<View, NoMemory> {
        Ok(View {
            name: self.name.try_copy()?,
            kind: self.kind,
            scope: copy_text(&self.scope)?,
            rename: copy_text(&self.rename)?,
            keep: self.keep.try_copy()?,
            aggregation: self.aggregation.try_copy()?,
        })
    }
}

impl TryCopy for Feed {
    fn try_copy(&self) -> Result<Feed, NoMemory> {
        Ok(Feed {
            stream: self.stream,
            keep: self.keep.try_copy()?,
        })
    }
}
