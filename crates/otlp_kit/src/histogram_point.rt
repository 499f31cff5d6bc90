//! HistogramDataPoint.
ghost use Rattle.std.specs.Prelude.{◌≡◌, ◌≢◌, ◌++◌, Ok, Err, IfErr, OnOk};
ghost use Rattle.otlp_kit.specs.Contents.{eights_in};
ghost use Rattle.otlp_kit.specs.Fields.{and_then};
ghost use Rattle.otlp_kit.specs.Messages.{no_histogram_point, histogram_point_step};

use crate::field::Field;
use crate::key_value::KeyValue;
use crate::lists::push;
use crate::message::{Message, read};
use crate::{RequestFault, RequestReason};
use attr_kit::Seq;
use std::alloc::Global;
use std::mem;

/// A HistogramDataPoint. Doubles are kept as their bits.
#[derive(Drop)]
pub(crate) struct HistogramPoint {
    pub(crate) start: Option<u64>,
    pub(crate) time: Option<u64>,
    pub(crate) count: Option<u64>,
    pub(crate) sum: Option<u64>,
    pub(crate) buckets: Seq<u64>,
    pub(crate) bounds: Seq<u64>,
    pub(crate) attributes: Seq<KeyValue>,
    pub(crate) flags: Option<u64>,
    pub(crate) least: Option<u64>,
    pub(crate) greatest: Option<u64>,
}

// Puts the numbers of a field behind those of earlier ones.
fn push_eights(alloc: Global, numbers: &mut Seq<u64>, field: &Field<'_>) -> Result<(), RequestFault>
    ensures ok { OnOk result (and_then (eights_in field.now) (λ more. Ok (numbers.old ++ more)) ≡ Ok numbers.new) }
    ensures err { IfErr result (λ f. f.why ≢ RequestReason.NoMemory → eights_in field.now ≡ Err f) }
{
    let mut items = mem::replace(numbers, Seq::new(alloc)).into_vec();
    field.push_eights(&mut items)?;
    *numbers = Seq::from_vec(items);
    Ok(())
}

impl Message for HistogramPoint {
    ghost none = { no_histogram_point };

    ghost step = { histogram_point_step };

    fn new(alloc: Global) -> HistogramPoint {
        HistogramPoint {
            start: None,
            time: None,
            count: None,
            sum: None,
            buckets: Seq::new(alloc),
            bounds: Seq::new(alloc),
            attributes: Seq::new(alloc),
            flags: None,
            least: None,
            greatest: None,
        }
    }

    #[tactic(auto, unfolding(crate::specs::Messages::histogram_point_step))]
    fn take(&mut self, alloc: Global, field: &Field<'_>) -> Result<(), RequestFault> {
        match field.number {
            2 => self.start = Some(field.eight_once(&self.start)?),
            3 => self.time = Some(field.eight_once(&self.time)?),
            4 => self.count = Some(field.eight_once(&self.count)?),
            5 => self.sum = Some(field.eight_once(&self.sum)?),
            6 => push_eights(alloc, &mut self.buckets, field)?,
            7 => push_eights(alloc, &mut self.bounds, field)?,
            9 => {
                let attribute = read::<KeyValue>(alloc, &field.block()?)?;
                push(alloc, &mut self.attributes, attribute)?;
            }
            10 => self.flags = Some(field.number_once(&self.flags)?),
            11 => self.least = Some(field.eight_once(&self.least)?),
            12 => self.greatest = Some(field.eight_once(&self.greatest)?),
            _ => {}
        }
        Ok(())
    }
}
