//! The views by the names that they match.
ghost use Rattle.std.specs.Prelude.{◌≡◌, ℕ, List, [], ◌∷◌, ◌++◌, filter, position, slice_get, IfOk, OnOk, if◌then◌else◌, ◌&&◌, true, false};
ghost use Rattle.std.specs.List.{list_any};
ghost use Rattle.plan_kit.specs.Matching.{places, holds_at, merge, places_under, IsIndex, ListsUnder, is_of, others_fit};
ghost use Rattle.plan_kit.specs.Views.{text_eq, view_fits, is_bad_view};
ghost use Rattle.plan_kit.specs.Aggregations.{is_refused};

use crate::fit::refuses;
use crate::names::in_lower_case;
use crate::{Aggregation, Instrument, NameRule, View};
use attr_kit::{NoMemory, Txt};
use std::alloc::Global;
use std::collections::HashMap;

/// The places of one sort of views, those that drop or the others: of each name those that match it alone, and those that
/// match every name.
#[derive(Drop)]
pub(crate) struct ViewIndex {
    exact: HashMap<Txt, Vec<usize>>,
    every: Vec<usize>,
}

// Adds a place under a name.
fn add(
    alloc: Global,
    lists: &mut HashMap<Txt, Vec<usize>>,
    name: Txt,
    place: usize,
) -> Result<(), NoMemory>
    ensures { OnOk result (ListsUnder name place lists.old lists.new) }
{
    match lists.get_mut(&name) {
        Some(list) => {
            list.push(place)?;
        }
        None => {
            let mut list = Vec::new(alloc);
            list.push(place)?;
            lists.insert(name, list)?;
        }
    }
    Ok(())
}

// Two rising lists of places as one.
#[tactic(auto, using(crate::proofs::Matching::merge_none))]
fn merge_rising(alloc: Global, left: &[usize], right: &[usize]) -> Result<Vec<usize>, NoMemory>
    ensures { IfOk result (λ all. all.items ≡ merge left.now right.now) }
{
    let mut all = Vec::new(alloc);
    let (mut left, mut right) = (left, right);
    while let Some((first, lefts)) = left.split_first() {
        match right.split_first() {
            None => {
                all.extend_from_slice(left)?;
                return Ok(all);
            }
            Some((second, rights)) => {
                if *first < *second {
                    all.push(*first)?;
                    left = lefts;
                } else {
                    all.push(*second)?;
                    right = rights;
                }
            }
        }
    }
    all.extend_from_slice(right)?;
    Ok(all)
}

fn fits_beside_name(view: &View, instrument: &Instrument) -> bool
    ensures { result ≡ others_fit instrument.now view.now }
{
    if let Some(kind) = &view.kind {
        if *kind != instrument.kind {
            return false;
        }
    }
    match &view.scope {
        Some(scope) => *scope == instrument.scope,
        None => true,
    }
}

fn fits_at(views: &[View], instrument: &Instrument, place: usize) -> bool
    ensures { result ≡ holds_at views.now (others_fit instrument.now) place }
{
    match views.get(place) {
        Some(view) => fits_beside_name(view, instrument),
        None => false,
    }
}

// Those places whose views fit beside their names.
fn fitting(
    alloc: Global,
    views: &[View],
    instrument: &Instrument,
    places: &[usize],
) -> Result<Vec<usize>, NoMemory>
    ensures { IfOk result (λ fit. fit.items ≡ filter (holds_at views.now (others_fit instrument.now)) places.now) }
{
    Ok(
        places
            .iter()
            .copied()
            .filter(|place| fits_at(views, instrument, *place))
            .collect(alloc)?,
    )
}

fn is_refused_at(views: &[View], instrument: &Instrument, place: usize) -> bool
    ensures { result ≡ holds_at views.now (λ v. is_refused instrument.now.kind v.aggregation) place }
{
    match views.get(place) {
        Some(view) => refuses(instrument.kind, &view.aggregation),
        None => false,
    }
}

// The first of the places whose view has an aggregation that does not fit.
fn first_refused(views: &[View], instrument: &Instrument, places: &[usize]) -> Option<usize>
    ensures { result ≡ slice_get (filter (holds_at views.now (λ v. is_refused instrument.now.kind v.aggregation)) places.now) 0 }
{
    for place in places {
        if is_refused_at(views, instrument, *place) {
            return Some(*place);
        }
    }
    None
}

// Whether the view at one of the places fits beside its name: looks no further than the first.
fn any_fits(views: &[View], instrument: &Instrument, places: &[usize]) -> bool
    ensures { result ≡ list_any (holds_at views.now (others_fit instrument.now)) places.now }
{
    places
        .iter()
        .any(|place| fits_at(views, instrument, *place))
}

fn is_of_sort(view: &View, drops: bool) -> bool
    ensures { result ≡ is_of drops view.now }
{
    match &view.aggregation {
        Aggregation::Drop => drops,
        _ => !drops,
    }
}

impl ViewIndex {
    /// The index of those of these views that drop, or of the others: a hash look-up for each.
    pub(crate) fn build(alloc: Global, views: &[View], drops: bool) -> Result<ViewIndex, NoMemory>
        ensures { IfOk result (λ index. IsIndex drops index.exact index.every.items views.now) }
    {
        let mut exact = HashMap::new(alloc);
        let mut every = Vec::new(alloc);
        for (place, view) in views.iter().enumerate() {
            if is_of_sort(view, drops) {
                match &view.name {
                    NameRule::Every => {
                        every.push(place)?;
                    }
                    NameRule::Exact(name) => {
                        add(alloc, &mut exact, in_lower_case(name.try_copy()?), place)?;
                    }
                }
            }
        }
        Ok(ViewIndex { exact, every })
    }

    // The places of the views whose names fit.
    fn places_of_name(&self, alloc: Global, name: &Txt) -> Result<Vec<usize>, NoMemory>
        ensures { IfOk result (λ places. places.items ≡ merge (places_under self.now.exact name.now) self.now.every.items) }
    {
        match self.exact.get(name) {
            Some(list) => merge_rising(alloc, list.as_slice(), self.every.as_slice()),
            None => merge_rising(alloc, &[], self.every.as_slice()),
        }
    }

    /// The places of the views that do not drop and match an instrument whose name is in lower case.
    pub(crate) fn matching(
        &self,
        alloc: Global,
        views: &[View],
        instrument: &Instrument,
    ) -> Result<Vec<usize>, NoMemory>
        requires { IsIndex false self.now.exact self.now.every.items views.now }
        ensures { IfOk result (λ fit. fit.items ≡ places (λ v. is_of false v && view_fits v instrument.now) views.now) }
    {
        let named = self.places_of_name(alloc, &instrument.name)?;
        Ok(fitting(alloc, views, instrument, named.as_slice())?)
    }

    /// The first of the views that match an instrument whose aggregation does not fit, which is none that drops.
    pub(crate) fn bad_view_at(
        &self,
        alloc: Global,
        views: &[View],
        instrument: &Instrument,
    ) -> Result<Option<usize>, NoMemory>
        requires { IsIndex false self.now.exact self.now.every.items views.now }
        ensures { IfOk result (λ place. place ≡ position (is_bad_view instrument.now) views.now) }
    {
        let matching = self.matching(alloc, views, instrument)?;
        Ok(first_refused(views, instrument, matching.as_slice()))
    }

    // Whether one of the views of the instrument's name fits beside it.
    fn any_named(&self, views: &[View], instrument: &Instrument) -> bool
        ensures { result ≡ list_any (holds_at views.now (others_fit instrument.now)) (places_under self.now.exact instrument.now.name) }
    {
        match self.exact.get(&instrument.name) {
            Some(list) => any_fits(views, instrument, list.as_slice()),
            None => false,
        }
    }

    /// Whether some view drops an instrument whose name is in lower case. Takes no memory.
    pub(crate) fn drops(&self, views: &[View], instrument: &Instrument) -> bool
        requires { IsIndex true self.now.exact self.now.every.items views.now }
        ensures { result ≡ list_any (λ v. is_of true v && view_fits v instrument.now) views.now }
    {
        self.any_named(views, instrument) || any_fits(views, instrument, self.every.as_slice())
    }
}
