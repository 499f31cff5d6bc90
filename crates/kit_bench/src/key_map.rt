//! A map of keys to cells by hand, beside which a gateway is measured: it has no change numbers, and counts no conflicts.
use crate::stores::{Store, Walked};
use attr_kit::{AttrSet, NoMemory, Txt};
use point_kit::{Cell, Export, ExportPoint, Held, Key, Shape, Stream, WriterId};
use std::alloc::Global;
use std::collections::BTreeMap;
use std::collections::btree_map::Entry;
use uuid::Uuid;

/// The cell of the latest time under each key.
#[derive(Drop)]
pub struct KeyMap {
    cells: BTreeMap<Key, Cell>,
}

// The key of an export's point.
fn key_of(export: &Export, point: &ExportPoint) -> Result<Key, NoMemory> {
    Ok(Key {
        writer: export.writer().try_copy()?,
        start: export.start(),
        stream: point.stream.get().try_copy()?,
        attrs: point.attrs.try_copy()?,
    })
}

fn cell_of(export: &Export, point: &ExportPoint) -> Result<Cell, NoMemory> {
    Ok(Cell {
        time: export.time(),
        held: Held::One(point.payload.try_copy()?),
    })
}

// No key of the service is less.
fn least_key(alloc: Global, service: Txt) -> Key {
    Key {
        writer: WriterId {
            service,
            instance: Uuid::nil(),
        },
        start: 0,
        stream: Stream {
            scope: Txt::from_string(String::new(alloc)),
            name: Txt::from_string(String::new(alloc)),
            unit: Txt::from_string(String::new(alloc)),
            shape: Shape::Sum { monotonic: false },
        },
        attrs: AttrSet::empty(alloc),
    }
}

impl KeyMap {
    fn put(&mut self, key: Key, cell: Cell) -> anyhow::Result<()> {
        match self.cells.entry(key)? {
            Entry::Occupied(mut entry) => {
                if entry.get().time < cell.time {
                    let _ = entry.insert(cell);
                }
            }
            Entry::Vacant(entry) => {
                let _ = entry.insert(cell);
            }
        }
        Ok(())
    }
}

impl Store for KeyMap {
    fn none(alloc: Global) -> KeyMap {
        KeyMap {
            cells: BTreeMap::new(alloc),
        }
    }

    fn len(&self) -> usize {
        self.cells.len()
    }

    fn take_in(&mut self, export: &Export) -> anyhow::Result<()> {
        for point in export.points() {
            self.put(key_of(export, point)?, cell_of(export, point)?)?;
        }
        Ok(())
    }

    fn let_go(&mut self, export: &Export) -> anyhow::Result<()> {
        for point in export.points() {
            let _ = self.cells.remove(&key_of(export, point)?);
        }
        Ok(())
    }

    fn merge_in(&mut self, other: &KeyMap) -> anyhow::Result<()> {
        for (key, cell) in other.cells.iter() {
            self.put(key.try_copy()?, cell.try_copy()?)?;
        }
        Ok(())
    }

    fn walk(&self, alloc: Global, service: &Txt, walked: &mut Walked) -> anyhow::Result<()> {
        for (key, cell) in self.cells.range(least_key(alloc, service.try_copy()?)..) {
            if key.writer.service != *service {
                break;
            }
            walked.pass(cell);
        }
        Ok(())
    }
}
