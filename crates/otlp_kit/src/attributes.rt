//! Attributes, and the resource of a writer.
ghost use Rattle.std.specs.Prelude.{◌≡◌, ◌+◌, ◌<◌, ◌++◌, ◌^◌, length, OnOk};
ghost use Rattle.attr_kit.specs.declared.attr_value.AttrValue.TheVariants as values;
ghost use Rattle.otlp_kit.specs.Request.{any_value, key_value, attribute, attributes, instance, service, resource};
ghost use Rattle.otlp_kit.specs.Wire.{block};

use crate::wire::{close_block, write_number, write_text};
use attr_kit::{AttrValue, NoMemory, Txt};
use point_kit::WriterId;
use uuid::Uuid;

// Below this a key and a text together leave each length that stands before them in one byte.
const SHORT: usize = 122;

// The value of an attribute: an AnyValue.
fn write_value(value: &AttrValue, out: &mut Vec<u8>) -> Result<(), NoMemory>
    ensures { OnOk result (out.new.items ≡ out.old.items ++ any_value value.now) }
{
    match value {
        AttrValue::Text(text) => write_text(1, text.as_str(), out),
        AttrValue::Truth(truth) => write_number(2, if *truth { 1 } else { 0 }, out),
        AttrValue::Whole(whole) => write_number(3, whole.cast_unsigned(), out),
    }
}

fn write_value_field(value: &AttrValue, out: &mut Vec<u8>) -> Result<(), NoMemory>
    ensures { OnOk result (out.new.items ≡ out.old.items ++ block 2 (any_value value.now)) }
{
    let start = out.len();
    write_value(value, out)?;
    close_block(2, start, out)
}

#[tactic(auto, unfolding(crate::specs::Request::key_value))]
fn write_key_value(key: &str, value: &AttrValue, out: &mut Vec<u8>) -> Result<(), NoMemory>
    ensures { OnOk result (out.new.items ≡ out.old.items ++ key_value (key.now, value.now)) }
{
    write_text(1, key, out)?;
    write_value_field(value, out)
}

// An attribute of a short text, as a field of this number: each of its lengths is known, and one byte.
fn write_short(field: u64, key: &str, text: &str, out: &mut Vec<u8>) -> Result<(), NoMemory>
    requires field { field < 16 }
    requires short { length key.now + length text.now < 122 }
    ensures { OnOk result (out.new.items ≡ out.old.items ++ attribute field (key.now, values.Text text.now)) }
{
    let (key_len, text_len) = (key.len() as u8, text.len() as u8);
    out.extend_from_slice(&[8 * field as u8 + 2, key_len + text_len + 6, 10, key_len])?;
    out.extend_from_slice(key.as_bytes())?;
    out.extend_from_slice(&[18, text_len + 2, 10, text_len])?;
    out.extend_from_slice(text.as_bytes())?;
    Ok(())
}

// The same of any attribute.
fn write_any(field: u64, key: &str, value: &AttrValue, out: &mut Vec<u8>) -> Result<(), NoMemory>
    requires { field < 2 ^ 29 }
    ensures { OnOk result (out.new.items ≡ out.old.items ++ attribute field (key.now, value.now)) }
{
    let start = out.len();
    write_key_value(key, value, out)?;
    close_block(field, start, out)
}

fn write_attribute(
    field: u64,
    key: &str,
    value: &AttrValue,
    out: &mut Vec<u8>,
) -> Result<(), NoMemory>
    requires { field < 16 }
    ensures { OnOk result (out.new.items ≡ out.old.items ++ attribute field (key.now, value.now)) }
{
    if let AttrValue::Text(text) = value {
        let text = text.as_str();
        if key.len() < SHORT && text.len() < SHORT - key.len() {
            return write_short(field, key, text, out);
        }
    }
    write_any(field, key, value, out)
}

/// Attributes in the order of their keys, as fields of this number.
#[tactic(auto, unfolding(crate::specs::Request::attributes))]
pub(crate) fn write_attributes(
    field: u64,
    pairs: &[(Txt, AttrValue)],
    out: &mut Vec<u8>,
) -> Result<(), NoMemory>
    requires { field < 16 }
    ensures { OnOk result (out.new.items ≡ out.old.items ++ attributes field pairs.now) }
{
    for (key, value) in pairs {
        write_attribute(field, key.as_str(), value, out)?;
    }
    Ok(())
}

fn write_instance(writer: &WriterId, out: &mut Vec<u8>) -> Result<(), NoMemory>
    ensures { OnOk result (out.new.items ≡ out.old.items ++ attribute 1 (instance writer.now)) }
{
    let mut buffer = Uuid::encode_buffer();
    let id = writer.instance.hyphenated();
    let id = Txt::from_str(*out.allocator(), id.encode_lower(&mut buffer))?;
    write_attribute(1, "service.instance.id", &AttrValue::Text(id), out)
}

fn write_service(writer: &WriterId, out: &mut Vec<u8>) -> Result<(), NoMemory>
    ensures { OnOk result (out.new.items ≡ out.old.items ++ attribute 1 (service writer.now)) }
{
    let name = AttrValue::Text(writer.service.try_copy()?);
    write_attribute(1, "service.name", &name, out)
}

/// The resource of a writer: its instance and its service, by the names of OpenTelemetry's semantic conventions.
#[tactic(auto, unfolding(crate::specs::Request::resource))]
pub(crate) fn write_resource(writer: &WriterId, out: &mut Vec<u8>) -> Result<(), NoMemory>
    ensures { OnOk result (out.new.items ≡ out.old.items ++ resource writer.now) }
{
    write_instance(writer, out)?;
    write_service(writer, out)
}
