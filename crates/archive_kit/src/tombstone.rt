//! Tombstones.
ghost use Rattle.std.specs.Prelude.{◌≡◌, IfOk, [], ◌∷◌, codes, pos};
ghost use Rattle.attr_kit.specs.declared.attr_value.AttrValue.TheVariants as values;
ghost use Rattle.uuid.specs.Text.{hyphenated_text, lower};
ghost use Rattle.archive_kit.specs.Archive.{told, tombstone_of};
ghost use Rattle.archive_kit.specs.Tombstones.{tombstones};

use attr_kit::{AttrSet, AttrValue, NoMemory, Txt};
use point_kit::{ExportPoint, Payload, Shape, SharedStream, Stream, WriterId};
use std::alloc::Global;
use uuid::Uuid;

/// The scope of tombstones.
pub const SCOPE: &str = "kotskhin.archive";

/// The tombstones' stream.
pub(crate) fn tombstones(alloc: Global) -> Result<SharedStream, NoMemory>
    ensures { IfOk result (λ stream. stream ≡ tombstones) }
{
    let stream = Stream {
        scope: Txt::from_str(alloc, SCOPE)?,
        name: Txt::from_str(alloc, "adopted")?,
        unit: Txt::from_str(alloc, "ns")?,
        shape: Shape::Gauge,
    };
    SharedStream::new(alloc, stream)
}

/// A number as an attribute or a gauge tells it.
pub(crate) fn told(number: u64) -> i64
    ensures { result ≡ pos (told number) }
{
    match i64::try_from(number) {
        Ok(number) => number,
        Err(_) => i64::MAX,
    }
}

/// The instance of an identity as a text.
pub(crate) fn instance_text(alloc: Global, instance: &Uuid) -> Result<Txt, NoMemory>
    ensures { IfOk result (λ text. text ≡ hyphenated_text lower instance.now) }
{
    let mut buffer = Uuid::encode_buffer();
    let id = instance.hyphenated();
    Txt::from_str(alloc, id.encode_lower(&mut buffer))
}

/// The three attributes.
pub(crate) fn attrs_of(
    alloc: Global,
    instance: Txt,
    service: Txt,
    start: i64,
) -> Result<AttrSet, NoMemory>
    ensures { IfOk result (λ attrs. attrs
        ≡ (codes "instance", values.Text instance)
        ∷ (codes "service", values.Text service)
        ∷ (codes "start", values.Whole start)
        ∷ []) }
{
    let mut pairs = Vec::with_capacity(alloc, 3)?;
    pairs.push((Txt::from_str(alloc, "instance")?, AttrValue::Text(instance)))?;
    pairs.push((Txt::from_str(alloc, "service")?, AttrValue::Text(service)))?;
    pairs.push((Txt::from_str(alloc, "start")?, AttrValue::Whole(start)))?;
    Ok(AttrSet::from_attributes(pairs))
}

/// The tombstone of an incarnation.
pub(crate) fn tombstone_of(
    alloc: Global,
    stream: &SharedStream,
    writer: &WriterId,
    start: u64,
    time: u64,
) -> Result<ExportPoint, NoMemory>
    requires { stream.now ≡ tombstones }
    ensures { IfOk result (λ point. point ≡ tombstone_of writer.now start time) }
{
    let instance = instance_text(alloc, &writer.instance)?;
    let service = writer.service.try_copy()?;
    Ok(ExportPoint {
        stream: stream.try_copy()?,
        attrs: attrs_of(alloc, instance, service, told(start))?,
        payload: Payload::Gauge(told(time)),
    })
}
