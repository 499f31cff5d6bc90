//! Points of one window.
ghost use Rattle.std.specs.Prelude.{◌≡◌, ◌++◌, [], IfOk};
ghost use Rattle.otlp_kit.specs.Reading.{groups_of};

use crate::lists::push;
use crate::placed::Placed;
use attr_kit::{NoMemory, Seq};
use point_kit::ExportPoint;
use std::alloc::Global;
use std::collections::BTreeMap;

/// The points of one start and one time.
#[derive(Drop)]
pub(crate) struct Group {
    pub(crate) start: u64,
    pub(crate) time: u64,
    pub(crate) points: Seq<ExportPoint>,
}

/// The points of each window, in the order in which windows appear first. O(n log n) comparisons of windows.
pub(crate) fn groups_of(alloc: Global, placed: Seq<Placed>) -> Result<Vec<Group>, NoMemory>
    ensures { IfOk result (λ groups. groups.items ≡ groups_of placed) }
{
    let mut places = BTreeMap::new(alloc);
    let mut groups: Vec<Group> = Vec::new(alloc);
    for next in placed.into_vec() {
        let Placed { start, time, point } = next;
        match places.get(&(start, time)) {
            Some(place) => push(alloc, &mut groups[*place].points, point)?,
            None => {
                places.insert((start, time), groups.len())?;
                let mut points = Vec::new(alloc);
                points.push(point)?;
                groups.push(Group {
                    start,
                    time,
                    points: Seq::from_vec(points),
                })?;
            }
        }
    }
    Ok(groups)
}
