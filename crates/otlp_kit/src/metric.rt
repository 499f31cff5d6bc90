//! Metric, and the kinds of its data.
ghost use Rattle.std.specs.Prelude.{◌≡◌, ◌≢◌, Ok, Err, IfOk, IfErr, OnOk};
ghost use Rattle.otlp_kit.specs.Messages.{data_of, no_gauge, gauge_step, no_sum, sum_step, no_histogram, histogram_step, no_metric, metric_step};

use crate::field::Field;
use crate::histogram_point::HistogramPoint;
use crate::lists::push;
use crate::message::{Message, read};
use crate::number_point::NumberPoint;
use crate::{RequestFault, RequestReason};
use attr_kit::{Seq, Txt};
use std::alloc::Global;

#[derive(Drop)]
pub(crate) struct Gauge {
    pub(crate) points: Seq<NumberPoint>,
}

impl Message for Gauge {
    ghost none = { no_gauge };

    ghost step = { gauge_step };

    fn new(alloc: Global) -> Gauge {
        Gauge {
            points: Seq::new(alloc),
        }
    }

    #[tactic(auto, unfolding(crate::specs::Messages::gauge_step))]
    fn take(&mut self, alloc: Global, field: &Field<'_>) -> Result<(), RequestFault> {
        if field.number == 1 {
            let point = read::<NumberPoint>(alloc, &field.block()?)?;
            push(alloc, &mut self.points, point)?;
        }
        Ok(())
    }
}

#[derive(Drop)]
pub(crate) struct Sum {
    pub(crate) points: Seq<NumberPoint>,
    pub(crate) temporality: Option<u64>,
    pub(crate) monotonic: Option<u64>,
}

impl Message for Sum {
    ghost none = { no_sum };

    ghost step = { sum_step };

    fn new(alloc: Global) -> Sum {
        Sum {
            points: Seq::new(alloc),
            temporality: None,
            monotonic: None,
        }
    }

    #[tactic(auto, unfolding(crate::specs::Messages::sum_step))]
    fn take(&mut self, alloc: Global, field: &Field<'_>) -> Result<(), RequestFault> {
        match field.number {
            1 => {
                let point = read::<NumberPoint>(alloc, &field.block()?)?;
                push(alloc, &mut self.points, point)?;
            }
            2 => self.temporality = Some(field.number_once(&self.temporality)?),
            3 => self.monotonic = Some(field.number_once(&self.monotonic)?),
            _ => {}
        }
        Ok(())
    }
}

#[derive(Drop)]
pub(crate) struct Histogram {
    pub(crate) points: Seq<HistogramPoint>,
    pub(crate) temporality: Option<u64>,
}

impl Message for Histogram {
    ghost none = { no_histogram };

    ghost step = { histogram_step };

    fn new(alloc: Global) -> Histogram {
        Histogram {
            points: Seq::new(alloc),
            temporality: None,
        }
    }

    #[tactic(auto, unfolding(crate::specs::Messages::histogram_step))]
    fn take(&mut self, alloc: Global, field: &Field<'_>) -> Result<(), RequestFault> {
        match field.number {
            1 => {
                let point = read::<HistogramPoint>(alloc, &field.block()?)?;
                push(alloc, &mut self.points, point)?;
            }
            2 => self.temporality = Some(field.number_once(&self.temporality)?),
            _ => {}
        }
        Ok(())
    }
}

/// What a metric has. Of the last two only that they are there is known.
#[derive(Drop)]
pub(crate) enum Data {
    Gauge(Gauge),
    Sum(Sum),
    Histogram(Histogram),
    ExponentialHistogram,
    Summary,
}

#[derive(Drop)]
pub(crate) struct Metric {
    pub(crate) name: Option<Txt>,
    pub(crate) unit: Option<Txt>,
    pub(crate) kind: Option<Data>,
}

// The member of the oneof that a field is.
fn data_of(alloc: Global, field: &Field<'_>) -> Result<Data, RequestFault>
    ensures ok { IfOk result (λ found. data_of field.now ≡ Ok found) }
    ensures err { IfErr result (λ f. f.why ≢ RequestReason.NoMemory → data_of field.now ≡ Err f) }
{
    let block = field.block()?;
    match field.number {
        5 => Ok(Data::Gauge(read(alloc, &block)?)),
        7 => Ok(Data::Sum(read(alloc, &block)?)),
        9 => Ok(Data::Histogram(read(alloc, &block)?)),
        10 => Ok(Data::ExponentialHistogram),
        _ => Ok(Data::Summary),
    }
}

impl Message for Metric {
    ghost none = { no_metric };

    ghost step = { metric_step };

    fn new(_alloc: Global) -> Metric {
        Metric {
            name: None,
            unit: None,
            kind: None,
        }
    }

    #[tactic(auto, unfolding(crate::specs::Messages::metric_step))]
    fn take(&mut self, alloc: Global, field: &Field<'_>) -> Result<(), RequestFault> {
        match field.number {
            1 => self.name = Some(field.name(alloc, &self.name)?),
            3 => self.unit = Some(field.name(alloc, &self.unit)?),
            5 | 7 | 9 | 10 | 11 => {
                field.first(&self.kind)?;
                self.kind = Some(data_of(alloc, field)?);
            }
            _ => {}
        }
        Ok(())
    }
}
