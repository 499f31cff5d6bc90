//! Incarnations by their numbers, and their exports.
use crate::gateways::{Keys, Sets, points, requests};
use attr_kit::{Seq, Txt};
use point_kit::{Export, SharedStream, WriterId};
use std::alloc::Global;
use uuid::Uuid;

// Services take turns among so many.
const SERVICES: u32 = 100;

// When each incarnation began.
const BEGIN: u64 = 100;

/// Consecutive numbers of incarnations.
#[derive(Clone, Copy)]
pub struct Numbers {
    pub from: u32,
    pub to: u32,
}

impl Numbers {
    /// So many from a number on.
    pub fn starting(from: u32, count: u32) -> Numbers {
        Numbers {
            from,
            to: from.saturating_add(count),
        }
    }
}

/// The service of a number.
pub fn service_of(alloc: Global, number: u32) -> anyhow::Result<Txt> {
    let service = number % SERVICES;
    Ok(Txt::from_string(format!(in alloc; "shop{service:02}")?))
}

// Identities of numbers that rise have no order: an odd factor scatters them over all numbers of 64 bits.
fn writer_of(alloc: Global, number: u32) -> anyhow::Result<WriterId> {
    let low = u64::from(number);
    let high = low.wrapping_mul(0x9E37_79B9_7F4A_7C15);
    Ok(WriterId {
        service: service_of(alloc, number)?,
        instance: Uuid::from_u64_pair(high, low),
    })
}

/// Incarnations of so many points each, which share their stream as those of one plan do.
#[derive(Drop)]
pub struct Source {
    pub alloc: Global,
    pub stream: SharedStream,
    pub points: u32,
}

impl Source {
    /// Incarnations of so many points each.
    pub fn of(alloc: Global, points: u32) -> anyhow::Result<Source> {
        Ok(Source {
            alloc,
            stream: requests(alloc)?,
            points,
        })
    }

    /// The export of a number at a time.
    pub fn export(&self, number: u32, time: u64) -> anyhow::Result<Export> {
        let keys = Keys::first(Sets::Numbers, self.points);
        let points = points(self.alloc, &self.stream, keys)?;
        let writer = writer_of(self.alloc, number)?;
        Ok(Export::build(self.alloc, writer, BEGIN, time, Seq::from_vec(points))?)
    }

    /// The exports of these numbers at a time.
    pub fn exports(&self, numbers: Numbers, time: u64) -> anyhow::Result<Vec<Export>> {
        let mut exports = Vec::new(self.alloc);
        for number in numbers.from..numbers.to {
            exports.push(self.export(number, time)?)?;
        }
        Ok(exports)
    }
}
