//! Views, made one by one and added to a list, and keys of attributes.
ghost use Rattle.std.specs.Prelude.{◌≡◌, ◌≢◌, ◌++◌, ◌∷◌, [], pos, None, Some, IfSome, OnOk, IfErr, IfOk};
ghost use Rattle.attr_kit.specs.AllowLists.{listed_keys};
ghost use Rattle.attr_kit.specs.Refusing.{first};
ghost use Rattle.kit_c.specs.Calls.{code_for, full_fault, if_any, in_one, of_one};
ghost use Rattle.kit_c.specs.Codes.{no_memory};
ghost use Rattle.kit_c.specs.Faults.{text_fault};
ghost use Rattle.kit_c.specs.Held.{keys_of, view_of, views_of};
ghost use Rattle.kit_c.specs.Kinds.{kind_fault, numbered_kind};
ghost use Rattle.kit_c.specs.Views.{aggregation_fault, numbered_aggregation, plain_view};
ghost use Rattle.attr_kit.specs.declared.keep.Keep.TheVariants as keeps;
ghost use Rattle.plan_kit.specs.declared.view.Aggregation.TheVariants as aggregations;
ghost use Rattle.plan_kit.specs.declared.view.NameRule.TheVariants as rules;

use crate::content::Content;
use crate::fault::{FULL, Fault, NO_MEMORY, NOTHING, OK, WRONG_KIND};
use crate::instruments::kind_of;
use crate::list::push;
use crate::text::text_of;
use crate::typed::{KitKeys, KitView, KitViews};
use crate::with::{add_to, copy_of, or_code, with};
use attr_kit::{AllowList, Keep, Seq, TryCopy};
use plan_kit::{Aggregation, NameRule, View};
use std::alloc::Global;

// A view that matches by its name rule alone, and changes nothing.
fn plain(name: NameRule) -> View
    ensures { result ≡ plain_view name }
{
    View {
        name,
        kind: None,
        scope: None,
        rename: None,
        keep: Keep::All,
        aggregation: Aggregation::Default,
    }
}

/// Makes a view of the instruments of one name, but for the case of ASCII letters. It changes nothing yet.
///
/// Refused, in this order: `FULL`; `NOT_TEXT`; `NO_MEMORY`.
#[unsafe(no_mangle)]
pub extern "C" fn kit_view_of_name(alloc: Global, view: &mut KitView, name: &[u8]) -> i32
    ensures code { result ≢ no_memory → result ≡ code_for (first (full_fault (view_of view.old) ∷ text_fault name.now ∷ [])) }
    ensures value { result ≡ pos 0 → view_of view.new ≡ Some (plain_view (rules.Exact name.now)) }
    ensures unchanged { result ≢ pos 0 → view_of view.new ≡ view_of view.old }
{
    if view.handle.full {
        return FULL;
    }
    let name = or_code!(text_of(alloc, name));
    view.handle
        .fill(alloc, Content::View(plain(NameRule::Exact(name))))
}

/// Makes a view of all instruments. It changes nothing yet.
///
/// Refused, in this order: `FULL`; `NO_MEMORY`.
#[unsafe(no_mangle)]
pub extern "C" fn kit_view_of_every(alloc: Global, view: &mut KitView) -> i32
    ensures code { result ≢ no_memory → result ≡ code_for (full_fault (view_of view.old)) }
    ensures value { result ≡ pos 0 → view_of view.new ≡ Some (plain_view rules.Every) }
    ensures unchanged { result ≢ pos 0 → view_of view.new ≡ view_of view.old }
{
    if view.handle.full {
        return FULL;
    }
    view.handle
        .fill(alloc, Content::View(plain(NameRule::Every)))
}

/// From now on a view is of instruments of one kind: 0 counters, 1 up-down counters, 2 gauges, 3 histograms.
///
/// Refused, in this order: `BAD_NUMBER` where the kind is none of these; `NOTHING`. Takes no memory.
#[unsafe(no_mangle)]
pub extern "C" fn kit_view_kind(alloc: Global, view: &mut KitView, kind: u8) -> i32
    ensures code { result ≡ code_for (first (kind_fault kind ∷ of_one (view_of view.old) if_any ∷ [])) }
    ensures value { result ≡ pos 0 → IfSome (numbered_kind kind)
        (λ k. view_of view.new ≡ in_one (λ v. record v { kind = Some k }) (view_of view.old)) }
    ensures unchanged { result ≢ pos 0 → view_of view.new ≡ view_of view.old }
{
    let kind = or_code!(kind_of(kind));
    with!(alloc, view => View(held), held.kind = Some(kind));
    OK
}

/// From now on a view is of instruments of one scope.
///
/// Refused, in this order: `NOT_TEXT`; `NOTHING`; `NO_MEMORY`.
#[unsafe(no_mangle)]
pub extern "C" fn kit_view_scope(alloc: Global, view: &mut KitView, scope: &[u8]) -> i32
    ensures code { result ≢ no_memory → result ≡ code_for (first (text_fault scope.now ∷ of_one (view_of view.old) if_any ∷ [])) }
    ensures value { result ≡ pos 0 → view_of view.new ≡ in_one (λ v. record v { scope = Some scope.now }) (view_of view.old) }
    ensures unchanged { result ≢ pos 0 → view_of view.new ≡ view_of view.old }
{
    let scope = or_code!(text_of(alloc, scope));
    with!(alloc, view => View(held), held.scope = Some(scope));
    OK
}

/// From now on a view gives its stream a new name.
///
/// Refused, in this order: `NOT_TEXT`; `NOTHING`; `NO_MEMORY`.
#[unsafe(no_mangle)]
pub extern "C" fn kit_view_rename(alloc: Global, view: &mut KitView, name: &[u8]) -> i32
    ensures code { result ≢ no_memory → result ≡ code_for (first (text_fault name.now ∷ of_one (view_of view.old) if_any ∷ [])) }
    ensures value { result ≡ pos 0 → view_of view.new ≡ in_one (λ v. record v { rename = Some name.now }) (view_of view.old) }
    ensures unchanged { result ≢ pos 0 → view_of view.new ≡ view_of view.old }
{
    let name = or_code!(text_of(alloc, name));
    with!(alloc, view => View(held), held.rename = Some(name));
    OK
}

/// From now on the stream of a view keeps these keys of attributes alone, which stay; none where their handle has nothing.
///
/// Refused, in this order: `NOTHING` of the view; `NO_MEMORY`.
#[unsafe(no_mangle)]
pub extern "C" fn kit_view_keep(alloc: Global, view: &mut KitView, keys: &mut KitKeys) -> i32
    ensures code { result ≢ no_memory → result ≡ code_for (of_one (view_of view.old) if_any) }
    ensures value { result ≡ pos 0 → view_of view.new
        ≡ in_one (λ v. record v { keep = keeps.Only (listed_keys (keys_of keys.old)) }) (view_of view.old) }
    ensures unchanged { result ≢ pos 0 → view_of view.new ≡ view_of view.old }
    ensures kept { keys_of keys.new ≡ keys_of keys.old }
{
    let copy = copy_of!(alloc, keys => Keys);
    let Ok(list) = AllowList::from_keys(copy.into_vec()) else {
        return NO_MEMORY;
    };
    with!(alloc, view => View(held), held.keep = Keep::Only(list));
    OK
}

fn aggregation_of(number: u8) -> Result<Aggregation, Fault>
    ensures ok { OnOk result (aggregation_fault number ≡ None) }
    ensures value { IfOk result (λ a. numbered_aggregation number ≡ Some a) }
    ensures err { IfErr result (λ f. aggregation_fault number ≡ Some f) }
{
    match number {
        0 => Ok(Aggregation::Default),
        1 => Ok(Aggregation::Sum),
        2 => Ok(Aggregation::LastValue),
        3 => Ok(Aggregation::Drop),
        _ => Err(Fault::BadNumber),
    }
}

/// From now on a view aggregates so: 0 as the kind of the instrument does, 1 a sum, 2 the last value, 3 not at all.
///
/// Refused, in this order: `BAD_NUMBER` where the number is none of these; `NOTHING`. Takes no memory.
#[unsafe(no_mangle)]
pub extern "C" fn kit_view_aggregation(alloc: Global, view: &mut KitView, number: u8) -> i32
    ensures code { result ≡ code_for (first (aggregation_fault number ∷ of_one (view_of view.old) if_any ∷ [])) }
    ensures value { result ≡ pos 0 → IfSome (numbered_aggregation number)
        (λ a. view_of view.new ≡ in_one (λ v. record v { aggregation = a }) (view_of view.old)) }
    ensures unchanged { result ≢ pos 0 → view_of view.new ≡ view_of view.old }
{
    let aggregation = or_code!(aggregation_of(number));
    with!(alloc, view => View(held), held.aggregation = aggregation);
    OK
}

/// From now on a view is a histogram of these bounds.
///
/// Refused, in this order: `NOTHING`; `NO_MEMORY`.
#[unsafe(no_mangle)]
pub extern "C" fn kit_view_buckets(alloc: Global, view: &mut KitView, bounds: &[i64]) -> i32
    ensures code { result ≢ no_memory → result ≡ code_for (of_one (view_of view.old) if_any) }
    ensures value { result ≡ pos 0 → view_of view.new
        ≡ in_one (λ v. record v { aggregation = aggregations.Buckets bounds.now }) (view_of view.old) }
    ensures unchanged { result ≢ pos 0 → view_of view.new ≡ view_of view.old }
{
    let Ok(copy) = Vec::from_slice(alloc, bounds) else {
        return NO_MEMORY;
    };
    with!(alloc, view => View(held), held.aggregation = Aggregation::Buckets(Seq::from_vec(copy)));
    OK
}

/// Adds a copy of a view: views are numbered from 0 in the order in which they are added. A handle that has nothing begins with it.
///
/// Refused, in this order: `NOTHING` of the view; `NO_MEMORY`.
#[unsafe(no_mangle)]
pub extern "C" fn kit_views_add(alloc: Global, views: &mut KitViews, view: &mut KitView) -> i32
    ensures code { result ≢ no_memory → result ≡ code_for (of_one (view_of view.old) if_any) }
    ensures value { result ≡ pos 0 → IfSome (view_of view.old) (λ v. views_of views.new ≡ views_of views.old ++ v ∷ []) }
    ensures unchanged { result ≢ pos 0 → views_of views.new ≡ views_of views.old }
    ensures kept { view_of view.new ≡ view_of view.old }
{
    let Ok(copy) = with!(alloc, view => View(held), held.try_copy()) else {
        return NO_MEMORY;
    };
    add_to!(alloc, views => Views, copy)
}

/// Adds a key. A handle that has nothing begins with it.
///
/// Refused, in this order: `NOT_TEXT`; `NO_MEMORY`.
#[unsafe(no_mangle)]
pub extern "C" fn kit_keys_add(alloc: Global, keys: &mut KitKeys, key: &[u8]) -> i32
    ensures code { result ≢ no_memory → result ≡ code_for (text_fault key.now) }
    ensures value { result ≡ pos 0 → keys_of keys.new ≡ keys_of keys.old ++ key.now ∷ [] }
    ensures unchanged { result ≢ pos 0 → keys_of keys.new ≡ keys_of keys.old }
{
    let key = or_code!(text_of(alloc, key));
    add_to!(alloc, keys => Keys, key)
}
