//! KeyValue and AnyValue.
ghost use Rattle.std.specs.Prelude.{◌≡◌, ◌≢◌, Ok, Err, IfOk, IfErr, OnOk};
ghost use Rattle.otlp_kit.specs.Messages.{any_content, any_step, no_value, key_value_step, no_key_value};
ghost use Rattle.otlp_kit.specs.declared.request_fault.RequestReason.TheVariants as reasons;

use crate::field::Field;
use crate::message::{Message, read};
use crate::{RequestFault, RequestReason};
use attr_kit::Txt;
use std::alloc::Global;

/// What an AnyValue has.
#[derive(Drop)]
pub(crate) enum AnyContent {
    Text(Txt),
    Truth(bool),
    Whole(i64),
    /// A double, bytes or values within it, which are not looked into.
    Other,
}

#[derive(Drop)]
pub(crate) struct AnyValue {
    pub(crate) content: Option<AnyContent>,
}

/// A KeyValue.
#[derive(Drop)]
pub(crate) struct KeyValue {
    pub(crate) key: Option<Txt>,
    pub(crate) value: Option<AnyValue>,
}

// The member of the oneof that a field is.
fn any_content(
    alloc: Global,
    field: &Field<'_>,
    held: &Option<AnyContent>,
) -> Result<AnyContent, RequestFault>
    ensures ok { IfOk result (λ c. any_content field.now held.now ≡ Ok c) }
    ensures err { IfErr result (λ f. f.why ≢ reasons.NoMemory → any_content field.now held.now ≡ Err f) }
{
    match field.number {
        1 => Ok(AnyContent::Text(field.text(alloc, held)?)),
        2 => Ok(AnyContent::Truth(field.number_once(held)? != 0)),
        3 => Ok(AnyContent::Whole(field.number_once(held)?.cast_signed())),
        4 => {
            let _double = field.eight_once(held)?;
            Ok(AnyContent::Other)
        }
        _ => {
            field.first(held)?;
            let _values = field.block()?;
            Ok(AnyContent::Other)
        }
    }
}

impl Message for AnyValue {
    ghost none = { no_value };

    ghost step = { any_step };

    fn new(_alloc: Global) -> AnyValue {
        AnyValue { content: None }
    }

    #[tactic(auto, unfolding(crate::specs::Messages::any_step))]
    fn take(&mut self, alloc: Global, field: &Field<'_>) -> Result<(), RequestFault> {
        if field.number <= 7 {
            self.content = Some(any_content(alloc, field, &self.content)?);
        }
        Ok(())
    }
}

impl Message for KeyValue {
    ghost none = { no_key_value };

    ghost step = { key_value_step };

    fn new(_alloc: Global) -> KeyValue {
        KeyValue {
            key: None,
            value: None,
        }
    }

    #[tactic(auto, unfolding(crate::specs::Messages::key_value_step))]
    fn take(&mut self, alloc: Global, field: &Field<'_>) -> Result<(), RequestFault> {
        match field.number {
            1 => self.key = Some(field.text(alloc, &self.key)?),
            2 => {
                field.first(&self.value)?;
                self.value = Some(read(alloc, &field.block()?)?);
            }
            _ => {}
        }
        Ok(())
    }
}
