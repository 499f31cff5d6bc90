//! Who writes, by the attributes of a resource.
ghost use Rattle.std.specs.Prelude.{◌≡◌, ◌≢◌, ◌+◌, codes, Ok, Err, Some, None, IfOk, IfErr, IfSome, IfNone};
ghost use Rattle.uuid.specs.Text.{parsed_hyphenated};
ghost use Rattle.otlp_kit.specs.Reading.{has_key, alone, text_in, text_under, resource_attributes, writer_of};
ghost use Rattle.std.specs.List.{list_any, position};
ghost use Rattle.std.specs.Option.{option_copied};

use crate::key_value::{AnyContent, AnyValue, KeyValue};
use crate::point_attributes::{has_key, has_one_of};
use crate::resource::Resource;
use crate::{RequestFault, RequestReason};
use attr_kit::Txt;
use point_kit::WriterId;
use uuid::Uuid;

fn text_of(attribute: &KeyValue) -> Option<&Txt>
    ensures { option_copied result ≡ text_in (Some attribute.now) }
{
    match &attribute.value {
        Some(
            AnyValue {
                content: Some(AnyContent::Text(text)),
            },
        ) => Some(text),
        _ => None,
    }
}

fn first_of(attributes: &[KeyValue], key: &str) -> Option<usize>
    ensures { result ≡ position (has_key key.now) attributes.now }
{
    attributes
        .iter()
        .position(|attribute| has_key(attribute, key))
}

// The place of the only attribute of a key.
fn alone(attributes: &[KeyValue], key: &str) -> Option<usize>
    ensures { result ≡ alone key.now attributes.now (position (has_key key.now) attributes.now) }
{
    match first_of(attributes, key) {
        Some(place) if has_one_of(&attributes[place + 1..], key) => None,
        place => place,
    }
}

// The text of the only attribute of a key.
fn text_under<'a>(attributes: &'a [KeyValue], key: &str) -> Option<&'a Txt>
    ensures { option_copied result ≡ text_under key.now attributes.now }
{
    match attributes.get(alone(attributes, key)?) {
        Some(attribute) => text_of(attribute),
        None => None,
    }
}

/// The attributes of a resource, which may be left out.
pub(crate) fn resource_attributes(resource: &Option<Resource>) -> &[KeyValue]
    ensures { result.now ≡ resource_attributes resource.now }
{
    match resource {
        Some(resource) => resource.attributes.as_slice(),
        None => &[],
    }
}

// The UUID of a text with hyphens.
#[tactic(auto, using(crate::proofs::Instances::with_hyphens))]
fn instance_of(text: &str) -> Option<Uuid>
    ensures some { IfSome result (λ instance. parsed_hyphenated text.now ≡ Some instance) }
    ensures none { IfNone result (parsed_hyphenated text.now ≡ None) }
{
    if text.len() != 36 {
        return None;
    }
    match Uuid::parse_str(text) {
        Ok(instance) => Some(instance),
        Err(_) => None,
    }
}

/// The writer of the resource at a place.
#[tactic(auto, unfolding(crate::specs::Reading::writer_of))]
pub(crate) fn writer_of(place: usize, attributes: &[KeyValue]) -> Result<WriterId, RequestFault>
    ensures ok { IfOk result (λ writer. writer_of place attributes.now ≡ Ok writer) }
    ensures err { IfErr result (λ f. f.why ≢ RequestReason.NoMemory → writer_of place attributes.now ≡ Err f) }
{
    let Some(service) = text_under(attributes, "service.name") else {
        return Err(RequestReason::NoService.at(place));
    };
    let Some(text) = text_under(attributes, "service.instance.id") else {
        return Err(RequestReason::NoInstance.at(place));
    };
    match instance_of(text.as_str()) {
        Some(instance) => Ok(WriterId {
            service: service.try_copy()?,
            instance,
        }),
        None => Err(RequestReason::NotUuid.at(place)),
    }
}
