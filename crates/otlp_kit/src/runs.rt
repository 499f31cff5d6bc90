//! Runs of points: the longest lists of neighbours of one stream, or of one scope.
ghost use Rattle.std.specs.Prelude.{◌≡◌, ◌<◌, length};
ghost use Rattle.otlp_kit.specs.Request.{of_one_stream, of_one_scope};
ghost use Rattle.otlp_kit.specs.Runs.{run_length};

use point_kit::ExportPoint;

fn of_one_stream(point: &ExportPoint, next: &ExportPoint) -> bool
    ensures { result ≡ of_one_stream point.now next.now }
{
    point.stream == next.stream
}

/// How many points at the front are of one stream.
pub(crate) fn stream_run(points: &[ExportPoint]) -> usize
    requires { 0 < length points.now }
    ensures { result ≡ run_length of_one_stream points.now }
{
    let mut len = 1;
    while len < points.len() {
        if !of_one_stream(&points[len - 1], &points[len]) {
            return len;
        }
        len += 1;
    }
    len
}

fn of_one_scope(point: &ExportPoint, next: &ExportPoint) -> bool
    ensures { result ≡ of_one_scope point.now next.now }
{
    point.stream.get().scope == next.stream.get().scope
}

/// How many points at the front are of one scope.
pub(crate) fn scope_run(points: &[ExportPoint]) -> usize
    requires { 0 < length points.now }
    ensures { result ≡ run_length of_one_scope points.now }
{
    let mut len = 1;
    while len < points.len() {
        if !of_one_scope(&points[len - 1], &points[len]) {
            return len;
        }
        len += 1;
    }
    len
}
