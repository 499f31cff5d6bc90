//! The refusals of instruments and views by themselves.
ghost use Rattle.std.specs.Prelude.{◌≡◌, ◌≢◌, Some, not, position};
ghost use Rattle.plan_kit.specs.Aggregations.{has_bad_bounds};
ghost use Rattle.plan_kit.specs.Names.{is_name, is_unit};
ghost use Rattle.plan_kit.specs.PlanFaults.{own_fault};
ghost use Rattle.plan_kit.specs.Views.{is_bad_rename, is_wild_rename};

use crate::fit::bounds_are_bad;
use crate::names::{is_good_name, is_good_unit};
use crate::{Instrument, NameRule, PlanFault, View};
use attr_kit::Txt;

fn bad_name_at(instruments: &[Instrument]) -> Option<usize>
    ensures { result ≡ position (λ i. not (is_name i.name)) instruments.now }
{
    instruments
        .iter()
        .position(|instrument| !is_good_name(&instrument.name))
}

fn bad_unit_at(instruments: &[Instrument]) -> Option<usize>
    ensures { result ≡ position (λ i. not (is_unit i.unit)) instruments.now }
{
    instruments
        .iter()
        .position(|instrument| !is_good_unit(&instrument.unit))
}

fn bad_bounds_at(views: &[View]) -> Option<usize>
    ensures { result ≡ position (λ v. has_bad_bounds v.aggregation) views.now }
{
    views
        .iter()
        .position(|view| bounds_are_bad(&view.aggregation))
}

fn rename_is_bad(rename: &Option<Txt>) -> bool
    ensures { result ≡ is_bad_rename rename.now }
{
    match rename {
        Some(name) => !is_good_name(name),
        None => false,
    }
}

fn bad_rename_at(views: &[View]) -> Option<usize>
    ensures { result ≡ position (λ v. is_bad_rename v.rename) views.now }
{
    views.iter().position(|view| rename_is_bad(&view.rename))
}

fn rename_is_wild(rule: &NameRule, rename: &Option<Txt>) -> bool
    ensures { result ≡ is_wild_rename rule.now rename.now }
{
    match rule {
        NameRule::Every => match rename {
            Some(_) => true,
            None => false,
        },
        NameRule::Exact(_) => false,
    }
}

fn wildcard_rename_at(views: &[View]) -> Option<usize>
    ensures { result ≡ position (λ v. is_wild_rename v.name v.rename) views.now }
{
    views
        .iter()
        .position(|view| rename_is_wild(&view.name, &view.rename))
}

/// The first refusal that an instrument or a view has by itself. Takes no memory.
#[tactic(auto, unfolding(crate::specs::PlanFaults::own_fault))]
pub(crate) fn fault_of_its_own(instruments: &[Instrument], views: &[View]) -> Option<PlanFault>
    ensures value { result ≡ own_fault instruments.now views.now }
    ensures never { result ≢ Some PlanFault.NoMemory }
{
    if let Some(place) = bad_name_at(instruments) {
        return Some(PlanFault::BadName(place));
    }
    if let Some(place) = bad_unit_at(instruments) {
        return Some(PlanFault::BadUnit(place));
    }
    if let Some(place) = bad_bounds_at(views) {
        return Some(PlanFault::BadBounds(place));
    }
    if let Some(place) = bad_rename_at(views) {
        return Some(PlanFault::BadRename(place));
    }
    if let Some(place) = wildcard_rename_at(views) {
        return Some(PlanFault::WildcardRename(place));
    }
    None
}
