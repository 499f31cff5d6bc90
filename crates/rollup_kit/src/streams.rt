//! The streams of which a gateway holds points.
ghost use Rattle.std.specs.Prelude.{◌≡◌, IfOk, OnOk};
ghost use Rattle.indexmap.specs.IndexSet.{insert_key};
ghost use Rattle.rollup_kit.specs.Streams.{stream_eq, streams_held};

use attr_kit::NoMemory;
use gateway_kit::Gateway;
use indexmap::IndexSet;
use point_kit::Stream;
use std::alloc::Global;

// Notes a stream, once.
fn note(seen: &mut IndexSet<Stream>, stream: &Stream) -> Result<(), NoMemory>
    ensures { OnOk result (seen.new.keys ≡ insert_key stream_eq seen.old.keys stream.now) }
{
    if !seen.contains(stream) {
        seen.insert(stream.try_copy()?)?;
    }
    Ok(())
}

/// The streams of which a gateway holds points: each once, in the order in which the points' keys name them first.
///
/// Refused: `NoMemory`. O(points), and memory for the streams alone.
pub fn streams_of(alloc: Global, gateway: &Gateway) -> Result<IndexSet<Stream>, NoMemory>
    ensures { IfOk result (λ seen. seen.keys ≡ streams_held gateway.now.points) }
{
    let mut seen = IndexSet::new(alloc);
    for point in gateway.points() {
        note(&mut seen, point.stream)?;
    }
    Ok(seen)
}
