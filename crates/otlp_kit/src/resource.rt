//! Resource, ResourceMetrics and the whole request.
ghost use Rattle.std.specs.Prelude.{◌≡◌, ◌≢◌, Ok, Err, IfErr, OnOk};
ghost use Rattle.otlp_kit.specs.Messages.{value_text, service_text, no_resource, resource_step, no_resource_metrics, resource_metrics_step, no_request, request_step};

use crate::RequestFault;
use crate::field::Field;
use crate::key_value::{AnyContent, AnyValue, KeyValue};
use crate::lists::push;
use crate::message::{Message, read};
use crate::point_attributes::key_of;
use crate::scope::ScopeMetrics;
use attr_kit::Seq;
use std::alloc::Global;

fn value_text(value: &Option<AnyValue>) -> &str
    ensures { result.now ≡ value_text value.now }
{
    match value {
        Some(
            AnyValue {
                content: Some(AnyContent::Text(text)),
            },
        ) => text.as_str(),
        _ => "",
    }
}

// The service that an attribute names, if it does.
fn service_text(attribute: &KeyValue) -> &str
    ensures { result.now ≡ service_text attribute.now }
{
    if key_of(attribute) == "service.name" {
        value_text(&attribute.value)
    } else {
        ""
    }
}

#[derive(Drop)]
pub(crate) struct Resource {
    pub(crate) attributes: Seq<KeyValue>,
}

impl Message for Resource {
    ghost none = { no_resource };

    ghost step = { resource_step };

    fn new(alloc: Global) -> Resource {
        Resource {
            attributes: Seq::new(alloc),
        }
    }

    #[tactic(auto, unfolding(crate::specs::Messages::resource_step))]
    fn take(&mut self, alloc: Global, field: &Field<'_>) -> Result<(), RequestFault> {
        if field.number == 1 {
            let attribute = read::<KeyValue>(alloc, &field.block()?)?;
            field.fits(service_text(&attribute))?;
            push(alloc, &mut self.attributes, attribute)?;
        }
        Ok(())
    }
}

#[derive(Drop)]
pub(crate) struct ResourceMetrics {
    pub(crate) resource: Option<Resource>,
    pub(crate) scopes: Seq<ScopeMetrics>,
}

impl Message for ResourceMetrics {
    ghost none = { no_resource_metrics };

    ghost step = { resource_metrics_step };

    fn new(alloc: Global) -> ResourceMetrics {
        ResourceMetrics {
            resource: None,
            scopes: Seq::new(alloc),
        }
    }

    #[tactic(auto, unfolding(crate::specs::Messages::resource_metrics_step))]
    fn take(&mut self, alloc: Global, field: &Field<'_>) -> Result<(), RequestFault> {
        match field.number {
            1 => {
                field.first(&self.resource)?;
                self.resource = Some(read::<Resource>(alloc, &field.block()?)?);
            }
            2 => {
                let scope = read::<ScopeMetrics>(alloc, &field.block()?)?;
                push(alloc, &mut self.scopes, scope)?;
            }
            _ => {}
        }
        Ok(())
    }
}

/// An ExportMetricsServiceRequest.
#[derive(Drop)]
pub(crate) struct Request {
    pub(crate) resources: Seq<ResourceMetrics>,
}

impl Message for Request {
    ghost none = { no_request };

    ghost step = { request_step };

    fn new(alloc: Global) -> Request {
        Request {
            resources: Seq::new(alloc),
        }
    }

    #[tactic(auto, unfolding(crate::specs::Messages::request_step))]
    fn take(&mut self, alloc: Global, field: &Field<'_>) -> Result<(), RequestFault> {
        if field.number == 1 {
            let resource = read::<ResourceMetrics>(alloc, &field.block()?)?;
            push(alloc, &mut self.resources, resource)?;
        }
        Ok(())
    }
}
