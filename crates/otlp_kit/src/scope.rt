//! InstrumentationScope and ScopeMetrics.
ghost use Rattle.std.specs.Prelude.{◌≡◌, ◌≢◌, Ok, Err, IfErr, OnOk};
ghost use Rattle.otlp_kit.specs.Messages.{no_scope, scope_step, no_scope_metrics, scope_metrics_step};

use crate::RequestFault;
use crate::field::Field;
use crate::key_value::KeyValue;
use crate::lists::push;
use crate::message::{Message, read};
use crate::metric::Metric;
use attr_kit::{Seq, Txt};
use std::alloc::Global;

/// An InstrumentationScope. Its attributes are compared and not used, so that their bytes are kept.
#[derive(Drop)]
pub(crate) struct Scope {
    pub(crate) name: Option<Txt>,
    pub(crate) version: Option<Txt>,
    pub(crate) attributes: Seq<Seq<u8>>,
}

impl Message for Scope {
    ghost none = { no_scope };

    ghost step = { scope_step };

    fn new(alloc: Global) -> Scope {
        Scope {
            name: None,
            version: None,
            attributes: Seq::new(alloc),
        }
    }

    #[tactic(auto, unfolding(crate::specs::Messages::scope_step))]
    fn take(&mut self, alloc: Global, field: &Field<'_>) -> Result<(), RequestFault> {
        match field.number {
            1 => self.name = Some(field.name(alloc, &self.name)?),
            2 => self.version = Some(field.text(alloc, &self.version)?),
            3 => {
                let block = field.block()?;
                let _attribute = read::<KeyValue>(alloc, &block)?;
                let bytes = Seq::from_vec(block.bytes().to_vec(alloc)?);
                push(alloc, &mut self.attributes, bytes)?;
            }
            _ => {}
        }
        Ok(())
    }
}

#[derive(Drop)]
pub(crate) struct ScopeMetrics {
    pub(crate) scope: Option<Scope>,
    pub(crate) metrics: Seq<Metric>,
}

impl Message for ScopeMetrics {
    ghost none = { no_scope_metrics };

    ghost step = { scope_metrics_step };

    fn new(alloc: Global) -> ScopeMetrics {
        ScopeMetrics {
            scope: None,
            metrics: Seq::new(alloc),
        }
    }

    #[tactic(auto, unfolding(crate::specs::Messages::scope_metrics_step))]
    fn take(&mut self, alloc: Global, field: &Field<'_>) -> Result<(), RequestFault> {
        match field.number {
            1 => {
                field.first(&self.scope)?;
                self.scope = Some(read::<Scope>(alloc, &field.block()?)?);
            }
            2 => {
                let metric = read::<Metric>(alloc, &field.block()?)?;
                push(alloc, &mut self.metrics, metric)?;
            }
            _ => {}
        }
        Ok(())
    }
}
