//! What a gateway holds, counted and as lines.
use crate::answer::Holding;
use attr_kit::{AttrSet, AttrValue, NoMemory, Txt};
use gateway_kit::{Gateway, PointRef};
use point_kit::{Cell, Held, Payload};
use std::alloc::{AllocError, Global};

// What a point adds to the total of all sums.
fn added(cell: &Cell) -> i128 {
    match cell.held {
        Held::One(Payload::Sum(sum)) => i128::from(sum),
        _ => 0,
    }
}

/// Counts what a gateway holds. The total saturates.
pub fn holding(gateway: &Gateway) -> Holding {
    let mut total: i128 = 0;
    for point in gateway.points() {
        total = total.saturating_add(added(point.cell));
    }
    Holding {
        points: gateway.len(),
        incarnations: gateway.incarnations_len(),
        total,
        conflicts: gateway.conflicts(),
    }
}

fn add_value(text: &mut String, value: &AttrValue) -> Result<(), AllocError> {
    match value {
        AttrValue::Text(value) => text.push_str(value.as_str()),
        AttrValue::Truth(value) => write!(text, "{value}"),
        AttrValue::Whole(value) => write!(text, "{value}"),
    }
}

fn add_attrs(text: &mut String, attrs: &AttrSet) -> Result<(), AllocError> {
    for (key, value) in attrs.pairs() {
        text.push_str(" ")?;
        text.push_str(key.as_str())?;
        text.push_str("=")?;
        add_value(text, value)?;
    }
    Ok(())
}

fn add_cell(text: &mut String, cell: &Cell) -> Result<(), AllocError> {
    let time = cell.time;
    match &cell.held {
        Held::One(payload) => writeln!(text, " {time} {payload:?}"),
        Held::Conflict => writeln!(text, " {time} Conflict"),
    }
}

fn add_point(text: &mut String, point: &PointRef<'_>) -> Result<(), AllocError> {
    text.push_str(point.writer.service.as_str())?;
    let instance = point.writer.instance.as_u128();
    let start = point.start;
    write!(text, "/{instance} {start} ")?;
    text.push_str(point.stream.name.as_str())?;
    add_attrs(text, point.attrs)?;
    add_cell(text, point.cell)
}

/// A line for each point that a gateway holds.
pub fn lines(alloc: Global, gateway: &Gateway) -> Result<String, AllocError> {
    let mut text = String::new(alloc);
    for point in gateway.points() {
        add_point(&mut text, &point)?;
    }
    Ok(text)
}
