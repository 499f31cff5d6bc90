//! What a message carries, as it is written and read.
ghost use Rattle.std.specs.Prelude.{◌≡◌, ◌++◌, true, IfErr, IfOk, OnOk};
ghost use Rattle.std.specs.FinMap.{entries, from_entries};
ghost use Rattle.std.specs.FinMap.Entries.{is_sorted};
ghost use Rattle.gossip_kit.specs.Bodies.{cells_of, delta_of, ack_of};
ghost use Rattle.point_kit.specs.Orders.{key_cmp};
ghost use Rattle.bytes_kit.specs.Explaining.{IsReadFault};
ghost use Rattle.bytes_kit.specs.MessageFits.{IsCarried, IsOneOf, carried_fault};
ghost use Rattle.bytes_kit.specs.Messages.{body_bytes, body_bytes_of};
ghost use Rattle.bytes_kit.specs.Reading.{Reads};

use crate::DecodeFault;
use crate::cells::{read_cells, write_cells};
use crate::piece::Piece;
use crate::reader::Reader;
use crate::sound::cells_fault;
use attr_kit::{NoMemory, Seq};
use gateway_kit::Gateway;
use gossip_kit::Body;
use point_kit::{Cell, ExportFault, Key};
use std::alloc::Global;

/// What a message carries: its body with the cells as a list.
#[derive(Drop)]
pub(crate) enum Carried {
    Whole(Seq<(Key, Cell)>),
    Delta {
        number: u64,
        cells: Seq<(Key, Cell)>,
    },
    Ack(u64),
}

/// The form of a body.
pub(crate) fn write_body(body: &Body, out: &mut Vec<u8>) -> Result<(), NoMemory>
    ensures written { OnOk result
        (out.new.items ≡ out.old.items ++ body_bytes (body_bytes_of (cells_of body.now) (delta_of body.now) (ack_of body.now))) }
    ensures value { OnOk result (IsCarried (body_bytes_of (cells_of body.now) (delta_of body.now) (ack_of body.now))) }
    ensures one { IsOneOf (cells_of body.now) (delta_of body.now) (ack_of body.now) }
{
    match body {
        Body::Whole(cells) => {
            out.push(0)?;
            write_cells(cells.points(), cells.len(), out)
        }
        Body::Delta { number, cells } => {
            out.push(1)?;
            number.write(out)?;
            write_cells(cells.points(), cells.len(), out)
        }
        Body::Ack(acknowledged) => {
            out.push(2)?;
            acknowledged.write(out)
        }
    }
}

impl Carried {
    /// What comes next.
    pub(crate) fn read(reader: &mut Reader<'_>) -> Result<Carried, DecodeFault>
        ensures found { Reads body_bytes IsCarried reader.old.rest result reader.new.rest }
        ensures value { IfOk result IsCarried }
        ensures end { reader.new.end ≡ reader.old.end }
        ensures fault { IfErr result (IsReadFault reader.old.end) }
    {
        let place = reader.place();
        match reader.byte()? {
            0 => Ok(Carried::Whole(read_cells(reader)?)),
            1 => {
                let number = u64::read(reader)?;
                let cells = read_cells(reader)?;
                Ok(Carried::Delta { number, cells })
            }
            2 => Ok(Carried::Ack(u64::read(reader)?)),
            _ => Err(DecodeFault::NotCanonical(place)),
        }
    }

    /// The reason of the first cell that no export brings.
    pub(crate) fn fault(&self) -> Option<ExportFault>
        ensures { result ≡ carried_fault self.now }
    {
        match self {
            Carried::Whole(cells) => cells_fault(cells.as_slice()),
            Carried::Delta { cells, .. } => cells_fault(cells.as_slice()),
            Carried::Ack(_) => None,
        }
    }

    /// The body: a gateway of an id with these cells.
    pub(crate) fn into_body(self, alloc: Global, id: u32) -> Result<Body, NoMemory>
        requires { IsCarried self }
        ensures value { IfOk result (λ b. body_bytes_of (cells_of b) (delta_of b) (ack_of b) ≡ self) }
        ensures one { IfOk result (λ b. IsOneOf (cells_of b) (delta_of b) (ack_of b)) }
    {
        Ok(match self {
            Carried::Whole(cells) => Body::Whole(gateway_of(alloc, id, cells)?),
            Carried::Delta { number, cells } => {
                let cells = gateway_of(alloc, id, cells)?;
                Body::Delta { number, cells }
            }
            Carried::Ack(number) => Body::Ack(number),
        })
    }
}

// Joins cells one by one, in the order of their keys.
fn gather(alloc: Global, id: u32, cells: Vec<(Key, Cell)>) -> Result<Gateway, NoMemory>
    requires { is_sorted key_cmp cells.items ≡ true }
    ensures { IfOk result (λ g. g.points ≡ from_entries cells.items) }
{
    let mut gateway = Gateway::new(alloc, id);
    for (key, cell) in cells {
        gateway.join_cell(key, cell)?;
    }
    Ok(gateway)
}

// A gateway with these cells.
fn gateway_of(alloc: Global, id: u32, cells: Seq<(Key, Cell)>) -> Result<Gateway, NoMemory>
    requires { is_sorted key_cmp cells ≡ true }
    ensures { IfOk result (λ g. entries g.points ≡ cells) }
{
    gather(alloc, id, cells.into_vec())
}
