//! Views that match no instrument.
use crate::listed::Listed;
use crate::notes::Notes;
use crate::short_word::ShortWord;
use attr_kit::{NoMemory, Txt};
use plan_kit::{Instrument, Kind, NameRule, View};
use std::alloc::Global;
use std::collections::HashSet;

/// What a view asks of an instrument, its name in lower case.
#[derive(PartialEq, Eq, Hash, Drop)]
struct Criteria {
    name: Option<Txt>,
    kind: Option<Kind>,
    scope: Option<Txt>,
}

/// Notes each view that matches no instrument. O(n) for n views and instruments.
pub(crate) fn unmatched_views(
    alloc: Global,
    listed: &Listed,
    notes: &mut Notes,
) -> Result<(), NoMemory> {
    if listed.views.is_empty() {
        return Ok(());
    }
    let mut met = HashSet::new(alloc);
    for (_, instrument) in &listed.instruments {
        add_criteria_met(instrument, &mut met)?;
    }
    for (line, view) in &listed.views {
        if !met.contains(&criteria_of(view)?) {
            let word = match &view.name {
                NameRule::Every => ShortWord::new("*"),
                NameRule::Exact(name) => ShortWord::new(name.as_str()),
            };
            let note = format!(in alloc; "the view of '{word}' matches no instrument")?;
            notes.add(*line, &note)?;
        }
    }
    Ok(())
}

fn criteria_of(view: &View) -> Result<Criteria, NoMemory> {
    Ok(Criteria {
        name: match &view.name {
            NameRule::Every => None,
            NameRule::Exact(name) => Some(name.try_copy()?.into_ascii_lowercase()),
        },
        kind: view.kind,
        scope: match &view.scope {
            Some(scope) => Some(scope.try_copy()?),
            None => None,
        },
    })
}

// Adds each of the eight ways in which a view may ask so that it matches an instrument.
fn add_criteria_met(instrument: &Instrument, met: &mut HashSet<Criteria>) -> Result<(), NoMemory> {
    for by_name in [false, true] {
        for by_kind in [false, true] {
            for by_scope in [false, true] {
                met.insert(Criteria {
                    name: if by_name {
                        Some(instrument.name.try_copy()?.into_ascii_lowercase())
                    } else {
                        None
                    },
                    kind: if by_kind { Some(instrument.kind) } else { None },
                    scope: if by_scope {
                        Some(instrument.scope.try_copy()?)
                    } else {
                        None
                    },
                })?;
            }
        }
    }
    Ok(())
}
