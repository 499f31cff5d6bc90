//! Asks, their rows, and tables.
ghost use Rattle.std.specs.Prelude.{◌≡◌, ◌≢◌, ◌∷◌, [], pos, None, Some, OnOk, IfErr, IfOk};
ghost use Rattle.std.specs.Option.{option_map};
ghost use Rattle.attr_kit.specs.AllowLists.{listed_keys};
ghost use Rattle.attr_kit.specs.Refusing.{first};
ghost use Rattle.attr_kit.specs.declared.keep.Keep.TheVariants as keeps;
ghost use Rattle.kit_c.specs.Asks.{all_of, asking_fault, stream_fault, stream_of as asked};
ghost use Rattle.kit_c.specs.Calls.{code_for, from_two, full_fault, if_any, if_both, in_one, of_one, of_two};
ghost use Rattle.kit_c.specs.Codes.{code_of, no_memory};
ghost use Rattle.kit_c.specs.Faults.{text_fault};
ghost use Rattle.kit_c.specs.Held.{ask_of, gateway_of, keys_of, node_of, pairs_of, rows_of, text_of as text_in};
ghost use Rattle.point_kit.specs.declared.shape.Shape.TheVariants as shapes;
ghost use Rattle.rollup_kit.specs.Rollups.{rollup_rows};
ghost use Rattle.rollup_kit.specs.TableText.{table_text};

use crate::content::Content;
use crate::fault::{FULL, Fault, NO_MEMORY, NOTHING, OK, WRONG_KIND};
use crate::text::text_of;
use crate::typed::{KitAsk, KitGateway, KitKeys, KitPairs, KitRows, KitText};
use crate::with::{copy_of, fill, fill_or_tell, or_code, with, with_two};
use attr_kit::{AllowList, Keep, Seq, TryCopy};
use point_kit::{Shape, Stream};
use rollup_kit::{Ask, rollup, table};
use std::alloc::Global;

// A plan lowers the names of its streams, so this does.
fn stream_of(
    alloc: Global,
    scope: &[u8],
    name: &[u8],
    unit: &[u8],
    shape: Shape,
) -> Result<Stream, Fault>
    ensures ok { OnOk result (stream_fault scope.now name.now unit.now ≡ None) }
    ensures value { IfOk result (λ s. s ≡ asked scope.now name.now unit.now shape) }
    ensures err { IfErr result (λ f. code_of f ≢ no_memory → stream_fault scope.now name.now unit.now ≡ Some f) }
{
    Ok(Stream {
        scope: text_of(alloc, scope)?,
        name: text_of(alloc, name)?.into_ascii_lowercase(),
        unit: text_of(alloc, unit)?,
        shape,
    })
}

/// An ask of all points of a stream, each set of attributes apart.
pub(crate) fn all(alloc: Global, stream: Stream) -> Ask
    ensures { result ≡ all_of stream }
{
    Ask {
        stream,
        service: None,
        only: Seq::new(alloc),
        keep: Keep::All,
    }
}

/// Asks for the points of a sum: of all services, with a row for each attribute set. The name is taken without regard to case, as plans
/// take it; scope and unit stand as they are.
///
/// Refused, in this order: `FULL`; `NOT_TEXT` where the scope, the name or the unit is no UTF-8; `NO_MEMORY`.
#[unsafe(no_mangle)]
pub extern "C" fn kit_ask_sum(
    alloc: Global,
    ask: &mut KitAsk,
    scope: &[u8],
    name: &[u8],
    unit: &[u8],
    monotonic: bool,
) -> i32
    ensures code { result ≢ no_memory → result ≡ code_for (asking_fault (ask_of ask.old) scope.now name.now unit.now) }
    ensures value { result ≡ pos 0 → ask_of ask.new ≡ Some (all_of (asked scope.now name.now unit.now (shapes.Sum monotonic))) }
    ensures unchanged { result ≢ pos 0 → ask_of ask.new ≡ ask_of ask.old }
{
    fill_or_tell!(alloc, ask => stream_of(alloc, scope, name, unit, Shape::Sum { monotonic }), stream => Content::Ask(all(alloc, stream)))
}

/// Asks for the points of a gauge: of all services, with a row for each attribute set.
///
/// Refused as `kit_ask_sum` is.
#[unsafe(no_mangle)]
pub extern "C" fn kit_ask_gauge(
    alloc: Global,
    ask: &mut KitAsk,
    scope: &[u8],
    name: &[u8],
    unit: &[u8],
) -> i32
    ensures code { result ≢ no_memory → result ≡ code_for (asking_fault (ask_of ask.old) scope.now name.now unit.now) }
    ensures value { result ≡ pos 0 → ask_of ask.new ≡ Some (all_of (asked scope.now name.now unit.now shapes.Gauge)) }
    ensures unchanged { result ≢ pos 0 → ask_of ask.new ≡ ask_of ask.old }
{
    fill_or_tell!(alloc, ask => stream_of(alloc, scope, name, unit, Shape::Gauge), stream => Content::Ask(all(alloc, stream)))
}

/// Asks for the points of a histogram of these bounds: of all services, with a row for each attribute set.
///
/// Refused as `kit_ask_sum` is.
#[unsafe(no_mangle)]
pub extern "C" fn kit_ask_histogram(
    alloc: Global,
    ask: &mut KitAsk,
    scope: &[u8],
    name: &[u8],
    unit: &[u8],
    bounds: &[i64],
) -> i32
    ensures code { result ≢ no_memory → result ≡ code_for (asking_fault (ask_of ask.old) scope.now name.now unit.now) }
    ensures value { result ≡ pos 0
        → ask_of ask.new ≡ Some (all_of (asked scope.now name.now unit.now (shapes.Histogram bounds.now))) }
    ensures unchanged { result ≢ pos 0 → ask_of ask.new ≡ ask_of ask.old }
{
    if ask.handle.full {
        return FULL;
    }
    let bounds = match Vec::from_slice(alloc, bounds) {
        Ok(bounds) => Seq::from_vec(bounds),
        Err(_) => return NO_MEMORY,
    };
    match stream_of(alloc, scope, name, unit, Shape::Histogram { bounds }) {
        Ok(stream) => ask.handle.fill(alloc, Content::Ask(all(alloc, stream))),
        Err(fault) => fault.code(),
    }
}

/// From now on an ask is of the points of one service's writers.
///
/// Refused, in this order: `NOT_TEXT`; `NOTHING`; `NO_MEMORY`.
#[unsafe(no_mangle)]
pub extern "C" fn kit_ask_service(alloc: Global, ask: &mut KitAsk, service: &[u8]) -> i32
    ensures code { result ≢ no_memory → result ≡ code_for (first (text_fault service.now ∷ of_one (ask_of ask.old) if_any ∷ [])) }
    ensures value { result ≡ pos 0 → ask_of ask.new ≡ in_one (λ a. record a { service = Some service.now }) (ask_of ask.old) }
    ensures unchanged { result ≢ pos 0 → ask_of ask.new ≡ ask_of ask.old }
{
    let service = or_code!(text_of(alloc, service));
    with!(alloc, ask => Ask(held), held.service = Some(service));
    OK
}

/// From now on an ask is of the points whose attributes have each of these pairs, which stay.
///
/// Refused, in this order: `NOTHING` of the ask; `NO_MEMORY`.
#[unsafe(no_mangle)]
pub extern "C" fn kit_ask_only(alloc: Global, ask: &mut KitAsk, pairs: &mut KitPairs) -> i32
    ensures code { result ≢ no_memory → result ≡ code_for (of_one (ask_of ask.old) if_any) }
    ensures value { result ≡ pos 0 → ask_of ask.new ≡ in_one (λ a. record a { only = pairs_of pairs.old }) (ask_of ask.old) }
    ensures unchanged { result ≢ pos 0 → ask_of ask.new ≡ ask_of ask.old }
    ensures kept { pairs_of pairs.new ≡ pairs_of pairs.old }
{
    let copy = copy_of!(alloc, pairs => Pairs);
    with!(alloc, ask => Ask(held), held.only = copy);
    OK
}

/// From now on an ask's rows are told apart by these keys alone, which stay; by none where their handle has nothing.
///
/// Refused, in this order: `NOTHING` of the ask; `NO_MEMORY`.
#[unsafe(no_mangle)]
pub extern "C" fn kit_ask_keep(alloc: Global, ask: &mut KitAsk, keys: &mut KitKeys) -> i32
    ensures code { result ≢ no_memory → result ≡ code_for (of_one (ask_of ask.old) if_any) }
    ensures value { result ≡ pos 0 → ask_of ask.new
        ≡ in_one (λ a. record a { keep = keeps.Only (listed_keys (keys_of keys.old)) }) (ask_of ask.old) }
    ensures unchanged { result ≢ pos 0 → ask_of ask.new ≡ ask_of ask.old }
    ensures kept { keys_of keys.new ≡ keys_of keys.old }
{
    let copy = copy_of!(alloc, keys => Keys);
    let Ok(list) = AllowList::from_keys(copy.into_vec()) else {
        return NO_MEMORY;
    };
    with!(alloc, ask => Ask(held), held.keep = Keep::Only(list));
    OK
}

/// The rows that a gateway answers an ask with. Both stay.
///
/// Refused, in this order: `FULL`; `NOTHING` of the gateway, then of the ask; `NO_MEMORY`. Of n points and r rows
/// O(n log r) comparisons of sets.
#[unsafe(no_mangle)]
pub extern "C" fn kit_gateway_rows(
    alloc: Global,
    gateway: &mut KitGateway,
    ask: &mut KitAsk,
    rows: &mut KitRows,
) -> i32
    ensures code { result ≢ no_memory → result ≡ code_for
        (first (full_fault (rows_of rows.old) ∷ of_two (gateway_of gateway.old) (ask_of ask.old) if_both ∷ [])) }
    ensures value { result ≡ pos 0
        → rows_of rows.new ≡ from_two (λ g a. rollup_rows a g.points) (gateway_of gateway.old) (ask_of ask.old) }
    ensures unchanged { result ≢ pos 0 → rows_of rows.new ≡ rows_of rows.old }
    ensures gateway { node_of gateway.new ≡ node_of gateway.old }
    ensures ask { ask_of ask.new ≡ ask_of ask.old }
{
    fill!(alloc, rows =>
        with_two!(alloc, gateway => Gateway(held), ask => Ask(asked), rollup(alloc, held.gateway(), asked)),
        answer => Content::Rows(answer))
}

/// The table of rows, as a text. The rows stay.
///
/// Refused, in this order: `FULL`; `NOTHING`; `NO_MEMORY`.
#[unsafe(no_mangle)]
pub extern "C" fn kit_rows_table(alloc: Global, rows: &mut KitRows, text: &mut KitText) -> i32
    ensures code { result ≢ no_memory
        → result ≡ code_for (first (full_fault (text_in text.old) ∷ of_one (rows_of rows.old) if_any ∷ [])) }
    ensures value { result ≡ pos 0 → text_in text.new ≡ option_map (λ rs. table_text rs) (rows_of rows.old) }
    ensures unchanged { result ≢ pos 0 → text_in text.new ≡ text_in text.old }
    ensures kept { rows_of rows.new ≡ rows_of rows.old }
{
    fill!(alloc, text => with!(alloc, rows => Rows(held), table(alloc, held.as_slice())), made => Content::Text(made))
}
