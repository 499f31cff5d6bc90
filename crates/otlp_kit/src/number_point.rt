//! NumberDataPoint.
ghost use Rattle.std.specs.Prelude.{◌≡◌, ◌≢◌, Ok, Err, IfErr, OnOk};
ghost use Rattle.otlp_kit.specs.Messages.{no_number_point, number_point_step};

use crate::RequestFault;
use crate::field::Field;
use crate::key_value::KeyValue;
use crate::lists::push;
use crate::message::{Message, read};
use attr_kit::Seq;
use std::alloc::Global;

/// The value of a point: a double, of which only that it is there is known, or the bits of a whole number.
#[derive(Drop)]
pub(crate) enum Number {
    Double,
    Whole(u64),
}

#[derive(Drop)]
pub(crate) struct NumberPoint {
    pub(crate) start: Option<u64>,
    pub(crate) time: Option<u64>,
    pub(crate) value: Option<Number>,
    pub(crate) attributes: Seq<KeyValue>,
    pub(crate) flags: Option<u64>,
}

impl Message for NumberPoint {
    ghost none = { no_number_point };

    ghost step = { number_point_step };

    fn new(alloc: Global) -> NumberPoint {
        NumberPoint {
            start: None,
            time: None,
            value: None,
            attributes: Seq::new(alloc),
            flags: None,
        }
    }

    #[tactic(auto, unfolding(crate::specs::Messages::number_point_step))]
    fn take(&mut self, alloc: Global, field: &Field<'_>) -> Result<(), RequestFault> {
        match field.number {
            2 => self.start = Some(field.eight_once(&self.start)?),
            3 => self.time = Some(field.eight_once(&self.time)?),
            4 => {
                let _double = field.eight_once(&self.value)?;
                self.value = Some(Number::Double);
            }
            6 => self.value = Some(Number::Whole(field.eight_once(&self.value)?)),
            7 => {
                let attribute = read::<KeyValue>(alloc, &field.block()?)?;
                push(alloc, &mut self.attributes, attribute)?;
            }
            8 => self.flags = Some(field.number_once(&self.flags)?),
            _ => {}
        }
        Ok(())
    }
}
