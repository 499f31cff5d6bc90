//! What is held under one key, and how two of one key are joined.
ghost use Rattle.std.specs.Prelude.{◌≡◌, IfOk};
ghost use Rattle.point_kit.specs.Best.{JoinsBests};
ghost use Rattle.point_kit.specs.Join.{join_cells, join_held, IsCommutative, IsAssociative, IsIdempotent, JoinsAbove, JoinsLeast};

use crate::Payload;
use attr_kit::{Exact, NoMemory, TryCopy};
use std::cmp::Ordering;

/// What was brought at one time: a payload, or that different payloads came. A stream has one logical writer (Metrics
/// Data Model, "Single-Writer"), so a conflict shows that two produced it.
#[derive(Debug, PartialEq, Eq, Drop)]
pub enum Held<P = Payload> {
    One(P),
    Conflict,
}

/// What is held under one key: a time, in nanoseconds since the Unix epoch, and what was brought at it.
#[derive(Debug, PartialEq, Eq, Drop)]
pub struct Cell<P = Payload> {
    pub time: u64,
    pub held: Held<P>,
}

impl<P: Exact + Drop> Cell<P> {
    /// The cell of the later time; at one time the payload if both hold equal ones, else a conflict. So a conflict
    /// stays one at its time, and gives way to any later time. Takes no memory and never fails; at most one comparison
    /// of payloads.
    pub fn join(self, other: Cell<P>) -> Cell<P>
        ensures value { result ≡ join_cells P.eq self other }

        // Neither the order nor the grouping of joins matters, nor what comes again.
        ensures commutative { IsCommutative (join_cells P.eq) }
        ensures associative { IsAssociative (join_cells P.eq) }
        ensures idempotent { IsIdempotent (join_cells P.eq) }

        // It is the least upper bound.
        ensures above { JoinsAbove (join_cells P.eq) }
        ensures least { JoinsLeast (join_cells P.eq) }

        // What is joined bit by bit is the best of all points.
        ensures bests { JoinsBests P.eq }
    {
        match self.time.cmp(&other.time) {
            Ordering::Less => other,
            Ordering::Greater => self,
            Ordering::Equal => Cell {
                time: self.time,
                held: self.held.join(other.held),
            },
        }
    }
}

impl<P: Exact + Drop> Held<P> {
    fn join(self, other: Held<P>) -> Held<P>
        ensures { result ≡ join_held P.eq self other }
    {
        match (self, other) {
            (Held::One(mine), Held::One(theirs)) => {
                if mine == theirs {
                    Held::One(mine)
                } else {
                    Held::Conflict
                }
            }
            _ => Held::Conflict,
        }
    }
}

impl<P: TryCopy> Cell<P> {
    /// An equal cell.
    pub fn try_copy(&self) -> Result<Cell<P>, NoMemory>
        ensures value { IfOk result (λ copy. copy ≡ self.now) }
    {
        Ok(Cell {
            time: self.time,
            held: self.held.try_copy()?,
        })
    }
}

impl<P: TryCopy> Held<P> {
    /// The same of what is held.
    pub fn try_copy(&self) -> Result<Held<P>, NoMemory>
        ensures value { IfOk result (λ copy. copy ≡ self.now) }
    {
        Ok(match self {
            Held::One(payload) => Held::One(payload.try_copy()?),
            Held::Conflict => Held::Conflict,
        })
    }
}
