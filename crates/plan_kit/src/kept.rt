//! What a plan keeps of its instruments.
ghost use Rattle.std.specs.Prelude.{◌≡◌, [], ◌∷◌, ◌++◌, OnOk};

use crate::{Feed, Kind};
use attr_kit::{NoMemory, TryCopy, copy_all};
use std::alloc::Global;
use std::marker::Model;

/// An instrument as a plan keeps it: its kind, and the place of the first instrument equal to it, whose feeds are its own.
#[derive(Clone, Copy, Debug)]
pub(crate) struct KeptInstrument {
    pub(crate) kind: Kind,
    pub(crate) owner: usize,
}

/// The feeds of an instrument.
#[derive(Debug, Drop)]
pub(crate) struct FeedList {
    feeds: Vec<Feed>,
}

impl Model for FeedList {
    ghost use Rattle.std.specs.Prelude.{List};
    ghost use Rattle.plan_kit.specs.declared.feed.Feed.{Feed};

    ghost Value = { List Feed };

    ghost view = { λ l. l.feeds.items };
}

impl FeedList {
    pub(crate) fn new(alloc: Global) -> FeedList
        ensures { result ≡ [] }
    {
        FeedList {
            feeds: Vec::new(alloc),
        }
    }

    pub(crate) fn push(&mut self, feed: Feed) -> Result<(), NoMemory>
        ensures { OnOk result (self.new ≡ self.old ++ feed ∷ []) }
    {
        self.feeds.push(feed)?;
        Ok(())
    }

    pub(crate) fn as_slice(&self) -> &[Feed]
        ensures { result.now ≡ self.now }
    {
        self.feeds.as_slice()
    }
}

impl TryCopy for FeedList {
    fn try_copy(&self) -> Result<FeedList, NoMemory> {
        Ok(FeedList {
            feeds: copy_all(&self.feeds)?,
        })
    }
}
