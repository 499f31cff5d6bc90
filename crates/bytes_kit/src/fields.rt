//! The forms of an export's fields.
ghost use Rattle.std.specs.Prelude.{◌≡◌, ◌≢◌, ◌≤◌, ◌++◌, ◌↔◌, IsTrue, IfErr, IfOk, false};
ghost use Rattle.std.specs.FinMap.Entries.{is_sorted};
ghost use Rattle.attr_kit.specs.Attributes.{keys_have_text, AreAttributes};
ghost use Rattle.attr_kit.specs.Orders.{text_cmp};
ghost use Rattle.bytes_kit.specs.Explaining.{IsReadFault};
ghost use Rattle.bytes_kit.specs.Fits.{IsInstance, IsInteger, IsValue, IsSet, IsShape, IsStream, IsPayload, IsPoint, IsWriter};
ghost use Rattle.bytes_kit.specs.Format.{text, value, past_value, attributes, past_attributes, shape, stream, past_stream, point_stream, past_point_stream, payload, point, past_point, writer, past_writer, same_behind, past_same};
ghost use Rattle.bytes_kit.specs.Laws.{text_code, text_bytes};
ghost use Rattle.bytes_kit.specs.FieldLaws.{value_code, value_bytes, attributes_code, attributes_bytes, shape_code, shape_bytes, stream_code, stream_bytes, point_stream_code, point_stream_bytes, payload_code, payload_bytes, point_code, point_bytes, writer_code, writer_bytes};
ghost use Rattle.bytes_kit.specs.Past.{is_last, with_stream};
ghost use Rattle.bytes_kit.specs.PastFits.{IsOtherStream};
ghost use Rattle.bytes_kit.specs.Reading.{NoneAt};
ghost use Rattle.bytes_kit.specs.declared.fault.DecodeFault.TheVariants as faults;

use crate::DecodeFault;
use crate::history::History;
use crate::passage::Passage;
use crate::passages::write_list_behind;
use crate::piece::Piece;
use crate::pieces::{read_counted, text_is_utf8, to_zigzag};
use crate::reader::Reader;
use crate::writer::write_counted;
use attr_kit::{AttrSet, AttrValue, NoMemory, Seq, Txt};
use point_kit::{ExportPoint, Payload, Shape, SharedStream, Stream, WriterId};
use uuid::Uuid;

impl Passage for AttrValue {
    ghost code = { value };

    ghost past = { past_value };

    ghost is_value = { IsValue };

    fn write_behind(&self, history: &mut History, out: &mut Vec<u8>) -> Result<(), NoMemory> {
        match self {
            AttrValue::Text(text) => {
                out.push(0)?;
                text.write_behind(history, out)
            }
            AttrValue::Truth(truth) => {
                out.push(if *truth { 2 } else { 1 })?;
                Ok(())
            }
            AttrValue::Whole(number) => {
                out.push(3)?;
                number.write(out)
            }
        }
    }

    fn read_behind(
        reader: &mut Reader<'_>,
        history: &mut History,
    ) -> Result<AttrValue, DecodeFault> {
        let place = reader.place();
        match reader.byte()? {
            0 => Ok(AttrValue::Text(Txt::read_behind(reader, history)?)),
            1 => Ok(AttrValue::Truth(false)),
            2 => Ok(AttrValue::Truth(true)),
            3 => Ok(AttrValue::Whole(i64::read(reader)?)),
            _ => Err(DecodeFault::NotCanonical(place)),
        }
    }

    ghost is_code = { value_code };

    ghost has_bytes = { value_bytes };
}

// Whether each key is below the next.
fn is_rising(pairs: &[(Txt, AttrValue)]) -> bool
    ensures { result ≡ is_sorted text_cmp pairs.now }
{
    pairs.is_sorted_by(|pair, next| pair.0 < next.0)
}

// Whether no key is empty.
fn is_named(pairs: &[(Txt, AttrValue)]) -> bool
    ensures { result ≡ keys_have_text pairs.now }
{
    pairs.iter().all(|pair| !pair.0.is_empty())
}

// Whether the pairs are a set, in its order.
fn are_attributes(pairs: &[(Txt, AttrValue)]) -> bool
    ensures { IsTrue result ↔ AreAttributes pairs.now }
{
    is_rising(pairs) && is_named(pairs)
}

impl Passage for AttrSet {
    ghost code = { attributes };

    ghost past = { past_attributes };

    ghost is_value = { IsSet };

    fn write_behind(&self, history: &mut History, out: &mut Vec<u8>) -> Result<(), NoMemory> {
        write_list_behind(self.pairs(), history, out)
    }

    fn read_behind(reader: &mut Reader<'_>, history: &mut History) -> Result<AttrSet, DecodeFault> {
        let place = reader.place();
        let pairs = Seq::<(Txt, AttrValue)>::read_behind(reader, history)?;
        if !are_attributes(pairs.as_slice()) {
            return Err(DecodeFault::NotCanonical(place));
        }
        Ok(AttrSet::from_attributes(pairs.into_vec()))
    }

    ghost is_code = { attributes_code };

    ghost has_bytes = { attributes_bytes };
}

impl Piece for Shape {
    ghost code = { shape };

    ghost is_value = { IsShape };

    fn write(&self, out: &mut Vec<u8>) -> Result<(), NoMemory> {
        match self {
            Shape::Sum { monotonic } => {
                out.push(if *monotonic { 1 } else { 0 })?;
                Ok(())
            }
            Shape::Gauge => {
                out.push(2)?;
                Ok(())
            }
            Shape::Histogram { bounds } => {
                out.push(3)?;
                bounds.write(out)
            }
        }
    }

    fn read(reader: &mut Reader<'_>) -> Result<Shape, DecodeFault> {
        let place = reader.place();
        match reader.byte()? {
            0 => Ok(Shape::Sum { monotonic: false }),
            1 => Ok(Shape::Sum { monotonic: true }),
            2 => Ok(Shape::Gauge),
            3 => {
                let bounds = Seq::<i64>::read(reader)?;
                Ok(Shape::Histogram { bounds })
            }
            _ => Err(DecodeFault::NotCanonical(place)),
        }
    }

    ghost is_code = { shape_code };

    ghost has_bytes = { shape_bytes };
}

impl Passage for Shape {
    ghost code = { same_behind shape };

    ghost past = { past_same };

    ghost is_value = { IsShape };

    fn write_behind(&self, _history: &mut History, out: &mut Vec<u8>) -> Result<(), NoMemory> {
        self.write(out)
    }

    fn read_behind(reader: &mut Reader<'_>, _history: &mut History) -> Result<Shape, DecodeFault> {
        Shape::read(reader)
    }

    ghost is_code = { λ _. shape_code };

    ghost has_bytes = { λ _. shape_bytes };
}

impl Passage for Stream {
    ghost code = { stream };

    ghost past = { past_stream };

    ghost is_value = { IsStream };

    fn write_behind(&self, history: &mut History, out: &mut Vec<u8>) -> Result<(), NoMemory> {
        self.scope.write_behind(history, out)?;
        self.name.write_behind(history, out)?;
        self.unit.write_behind(history, out)?;
        self.shape.write(out)
    }

    fn read_behind(reader: &mut Reader<'_>, history: &mut History) -> Result<Stream, DecodeFault> {
        let (scope, (name, (unit, shape))) = <(Txt, (Txt, (Txt, Shape)))>::read_behind(
            reader, history,
        )?;
        Ok(Stream {
            scope,
            name,
            unit,
            shape,
        })
    }

    ghost is_code = { stream_code };

    ghost has_bytes = { stream_bytes };
}

// A bound is an integer of 64 bits. Does nothing.
fn bound_is_integer(bound: i64)
    ensures { IsInteger bound }
{
    to_zigzag(bound);
}

// So all bounds of a shape are. Does nothing.
fn bounds_are_integers(shape: &Shape)
    ensures { IsShape shape.now }
{
    if let Shape::Histogram { bounds } = shape {
        for bound in bounds.as_slice() {
            bound_is_integer(*bound);
        }
    }
}

// So a stream's fields are as there is a form for. Does nothing.
fn stream_fits(stream: &Stream)
    ensures { IsStream stream.now }
{
    text_is_utf8(&stream.scope);
    text_is_utf8(&stream.name);
    text_is_utf8(&stream.unit);
    bounds_are_integers(&stream.shape);
}

// A stream that is not the last, or not light, behind the 1 that says so.
fn read_other(
    place: usize,
    reader: &mut Reader<'_>,
    history: &mut History,
) -> Result<SharedStream, DecodeFault>
    requires { place ≤ reader.old.end }
    ensures ok { IfOk result (λ s. reader.old.rest ≡ stream history.old s ++ reader.new.rest) }
    ensures other { IfOk result (λ s. is_last history.old.stream s ≡ false) }
    ensures value { IfOk result IsStream }
    ensures history { IfOk result (λ s. history.new ≡ with_stream (past_stream history.old s) s) }
    ensures err { IfErr result (λ f. f ≢ faults.NoMemory → NoneAt (stream history.old) (IsOtherStream history.old) reader.old.rest) }
    ensures end { reader.new.end ≡ reader.old.end }
    ensures fault { IfErr result (IsReadFault reader.old.end) }
{
    let alloc = reader.alloc();
    let stream = Stream::read_behind(reader, history)?;
    if history.is_last(&stream) {
        return Err(DecodeFault::NotCanonical(place));
    }
    stream_fits(&stream);
    let stream = SharedStream::new(alloc, stream)?;
    history.keep(stream.try_copy()?);
    Ok(stream)
}

impl Passage for SharedStream {
    ghost code = { point_stream };

    ghost past = { past_point_stream };

    ghost is_value = { IsStream };

    fn write_behind(&self, history: &mut History, out: &mut Vec<u8>) -> Result<(), NoMemory> {
        if history.is_last(self.get()) {
            out.push(0)?;
            return Ok(());
        }
        out.push(1)?;
        self.get().write_behind(history, out)?;
        history.keep(self.try_copy()?);
        Ok(())
    }

    fn read_behind(
        reader: &mut Reader<'_>,
        history: &mut History,
    ) -> Result<SharedStream, DecodeFault> {
        let place = reader.place();
        match reader.byte()? {
            0 => match history.last()? {
                Some(stream) => Ok(stream),
                None => Err(DecodeFault::NotCanonical(place)),
            },
            1 => read_other(place, reader, history),
            _ => Err(DecodeFault::NotCanonical(place)),
        }
    }

    ghost is_code = { point_stream_code };

    ghost has_bytes = { point_stream_bytes };
}

impl Piece for Payload {
    ghost code = { payload };

    ghost is_value = { IsPayload };

    fn write(&self, out: &mut Vec<u8>) -> Result<(), NoMemory> {
        match self {
            Payload::Sum(number) => {
                out.push(0)?;
                number.write(out)
            }
            Payload::Gauge(number) => {
                out.push(1)?;
                number.write(out)
            }
            Payload::Hist {
                count,
                sum,
                buckets,
                range: None,
            } => {
                out.push(2)?;
                count.write(out)?;
                sum.write(out)?;
                buckets.write(out)
            }
            Payload::Hist {
                count,
                sum,
                buckets,
                range: Some(range),
            } => {
                out.push(3)?;
                count.write(out)?;
                sum.write(out)?;
                buckets.write(out)?;
                range.write(out)
            }
        }
    }

    fn read(reader: &mut Reader<'_>) -> Result<Payload, DecodeFault> {
        let place = reader.place();
        match reader.byte()? {
            0 => Ok(Payload::Sum(i64::read(reader)?)),
            1 => Ok(Payload::Gauge(i64::read(reader)?)),
            2 => {
                let (count, (sum, buckets)) = <(u64, (i64, Seq<u64>))>::read(reader)?;
                Ok(Payload::Hist {
                    count,
                    sum,
                    buckets,
                    range: None,
                })
            }
            3 => {
                let (count, (sum, (buckets, range))) = <(u64, (i64, (Seq<u64>, (i64, i64))))>::read(
                    reader,
                )?;
                Ok(Payload::Hist {
                    count,
                    sum,
                    buckets,
                    range: Some(range),
                })
            }
            _ => Err(DecodeFault::NotCanonical(place)),
        }
    }

    ghost is_code = { payload_code };

    ghost has_bytes = { payload_bytes };
}

impl Passage for Payload {
    ghost code = { same_behind payload };

    ghost past = { past_same };

    ghost is_value = { IsPayload };

    fn write_behind(&self, _history: &mut History, out: &mut Vec<u8>) -> Result<(), NoMemory> {
        self.write(out)
    }

    fn read_behind(
        reader: &mut Reader<'_>,
        _history: &mut History,
    ) -> Result<Payload, DecodeFault> {
        Payload::read(reader)
    }

    ghost is_code = { λ _. payload_code };

    ghost has_bytes = { λ _. payload_bytes };
}

impl Passage for ExportPoint {
    ghost code = { point };

    ghost past = { past_point };

    ghost is_value = { IsPoint };

    fn write_behind(&self, history: &mut History, out: &mut Vec<u8>) -> Result<(), NoMemory> {
        self.stream.write_behind(history, out)?;
        self.attrs.write_behind(history, out)?;
        self.payload.write(out)
    }

    fn read_behind(
        reader: &mut Reader<'_>,
        history: &mut History,
    ) -> Result<ExportPoint, DecodeFault> {
        let (stream, (attrs, payload)) = <(SharedStream, (AttrSet, Payload))>::read_behind(
            reader, history,
        )?;
        Ok(ExportPoint {
            stream,
            attrs,
            payload,
        })
    }

    ghost is_code = { point_code };

    ghost has_bytes = { point_bytes };
}

impl Piece for Uuid {
    ghost code = { text };

    ghost is_value = { IsInstance };

    fn write(&self, out: &mut Vec<u8>) -> Result<(), NoMemory> {
        write_counted(self.as_bytes(), out)
    }

    fn read(reader: &mut Reader<'_>) -> Result<Uuid, DecodeFault> {
        let place = reader.place();
        let bytes = read_counted(reader)?;
        match <[u8; 16]>::try_from(bytes) {
            Ok(bytes) => Ok(Uuid::from_bytes(bytes)),
            Err(_) => Err(DecodeFault::NotCanonical(place)),
        }
    }

    ghost is_code = { text_code };

    ghost has_bytes = { text_bytes };
}

impl Passage for Uuid {
    ghost code = { same_behind text };

    ghost past = { past_same };

    ghost is_value = { IsInstance };

    fn write_behind(&self, _history: &mut History, out: &mut Vec<u8>) -> Result<(), NoMemory> {
        self.write(out)
    }

    fn read_behind(reader: &mut Reader<'_>, _history: &mut History) -> Result<Uuid, DecodeFault> {
        Uuid::read(reader)
    }

    ghost is_code = { λ _. text_code };

    ghost has_bytes = { λ _. text_bytes };
}

impl Passage for WriterId {
    ghost code = { writer };

    ghost past = { past_writer };

    ghost is_value = { IsWriter };

    fn write_behind(&self, history: &mut History, out: &mut Vec<u8>) -> Result<(), NoMemory> {
        self.service.write_behind(history, out)?;
        self.instance.write(out)
    }

    fn read_behind(
        reader: &mut Reader<'_>,
        history: &mut History,
    ) -> Result<WriterId, DecodeFault> {
        let (service, instance) = <(Txt, Uuid)>::read_behind(reader, history)?;
        Ok(WriterId { service, instance })
    }

    ghost is_code = { writer_code };

    ghost has_bytes = { writer_bytes };
}
