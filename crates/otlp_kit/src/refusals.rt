//! What is looked for before anything is written.
ghost use Rattle.std.specs.List.{list_any};
ghost use Rattle.std.specs.Prelude.{◌≡◌, position};
ghost use Rattle.otlp_kit.specs.Limits.{is_long_stream};
ghost use Rattle.otlp_kit.specs.Refusals.{rises, has_bad_bounds, has_long_text, has_many_attributes, early_fault};

use crate::OtlpFault;
use crate::doubles::rounded;
use crate::limits::{are_many, is_long};
use crate::points::bounds_of;
use point_kit::{Export, ExportPoint, Stream};

/// Whether the doubles of bounds rise, each from the one before it.
pub(crate) fn are_rising(bounds: &[i64]) -> bool
    ensures { result ≡ rises bounds.now }
{
    bounds.is_sorted_by(|bound, next| rounded(*bound) < rounded(*next))
}

fn has_bad_bounds(point: &ExportPoint) -> bool
    ensures { result ≡ has_bad_bounds point.now }
{
    !are_rising(bounds_of(&point.stream.get().shape))
}

// The least place of a point whose bounds do not rise as doubles.
fn bad_bounds_at(points: &[ExportPoint]) -> Option<usize>
    ensures { result ≡ position has_bad_bounds points.now }
{
    points.iter().position(|point| has_bad_bounds(point))
}

fn is_long_stream(stream: &Stream) -> bool
    ensures { result ≡ is_long_stream stream.now }
{
    is_long(stream.scope.as_str()) || is_long(stream.name.as_str()) || is_long(stream.unit.as_str())
}

fn has_long_text(point: &ExportPoint) -> bool
    ensures { result ≡ has_long_text point.now }
{
    is_long_stream(point.stream.get())
}

fn have_long_text(points: &[ExportPoint]) -> bool
    ensures { result ≡ list_any has_long_text points.now }
{
    points.iter().any(|point| has_long_text(point))
}

fn has_many_attributes(point: &ExportPoint) -> bool
    ensures { result ≡ has_many_attributes point.now }
{
    are_many(point.attrs.pairs())
}

// The least place of a point with more attributes than it may have.
fn many_attributes_at(points: &[ExportPoint]) -> Option<usize>
    ensures { result ≡ position has_many_attributes points.now }
{
    points.iter().position(|point| has_many_attributes(point))
}

/// Why an export has no request, as far as that is known before anything is written.
#[tactic(auto, unfolding(crate::specs::Refusals::early_fault))]
pub(crate) fn early_fault(export: &Export) -> Option<OtlpFault>
    ensures { result ≡ early_fault export.now }
{
    if let Some(place) = bad_bounds_at(export.points()) {
        return Some(OtlpFault::BadBounds(place));
    }
    if is_long(export.writer().service.as_str()) || have_long_text(export.points()) {
        return Some(OtlpFault::TooLongText);
    }
    match many_attributes_at(export.points()) {
        Some(place) => Some(OtlpFault::TooManyAttributes(place)),
        None => None,
    }
}
