//! What holds the points of incarnations.
use attr_kit::Txt;
use gateway_kit::Gateway;
use gossip_kit::Node;
use point_kit::{Cell, Export, Held, Payload};
use std::alloc::Global;

/// Walks over cells: how many they passed, and what their sums come to.
#[derive(Clone, Copy, Debug, Default, PartialEq, Eq)]
pub struct Walked {
    pub cells: u64,
    pub sum: i64,
}

impl Walked {
    /// Adds a cell.
    pub fn pass(&mut self, cell: &Cell) {
        self.cells = self.cells.saturating_add(1);
        if let Held::One(Payload::Sum(sum)) = &cell.held {
            self.sum = self.sum.wrapping_add(*sum);
        }
    }
}

/// What holds the points of incarnations.
pub trait Store: Drop + Sized {
    /// One that holds nothing.
    fn none(alloc: Global) -> Self;

    /// How many points it holds.
    fn len(&self) -> usize;

    fn take_in(&mut self, export: &Export) -> anyhow::Result<()>;

    /// Drops what is of an export's incarnation.
    fn let_go(&mut self, export: &Export) -> anyhow::Result<()>;

    fn merge_in(&mut self, other: &Self) -> anyhow::Result<()>;

    /// A walk over the points of a service.
    fn walk(&self, alloc: Global, service: &Txt, walked: &mut Walked) -> anyhow::Result<()>;
}

impl Store for Node {
    fn none(alloc: Global) -> Node {
        Node::new(alloc, Gateway::new(alloc, 1))
    }

    fn len(&self) -> usize {
        self.gateway().len()
    }

    fn take_in(&mut self, export: &Export) -> anyhow::Result<()> {
        let _ = self.take(export)?;
        Ok(())
    }

    fn let_go(&mut self, export: &Export) -> anyhow::Result<()> {
        let _ = self.forget(export.writer(), export.start());
        Ok(())
    }

    fn merge_in(&mut self, other: &Node) -> anyhow::Result<()> {
        let _ = self.merge(other.gateway())?;
        Ok(())
    }

    fn walk(&self, _alloc: Global, service: &Txt, walked: &mut Walked) -> anyhow::Result<()> {
        for point in self.gateway().points_of(service.as_str()) {
            walked.pass(point.cell);
        }
        Ok(())
    }
}
