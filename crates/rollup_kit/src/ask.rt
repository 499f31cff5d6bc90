//! What is asked of a gateway.
ghost use Rattle.std.specs.Prelude.{◌≡◌, IfOk};
ghost use Rattle.rollup_kit.specs.Asks.{is_of_service, has_pair, has_pairs};

use attr_kit::{AttrSet, AttrValue, Keep, NoMemory, Seq, TryCopy, Txt};
use point_kit::{Stream, WriterId};
use std::alloc::Global;

/// What is asked of a gateway: which of its points, and how they are grouped.
#[derive(Debug, PartialEq, Eq, Drop)]
pub struct Ask {
    pub stream: Stream,
    /// The service of the points' writers; any where there is none.
    pub service: Option<Txt>,
    /// Pairs that the points' attributes have, all of them.
    pub only: Seq<(Txt, AttrValue)>,
    /// Which attributes tell rows apart.
    pub keep: Keep,
}

fn pairs_of(alloc: Global, attrs: &AttrSet) -> Result<Seq<(Txt, AttrValue)>, NoMemory>
    ensures { IfOk result (λ pairs. pairs ≡ attrs.now) }
{
    let mut pairs = Vec::with_capacity(alloc, attrs.len())?;
    for pair in attrs.pairs() {
        pairs.push(pair.try_copy()?)?;
    }
    Ok(Seq::from_vec(pairs))
}

impl Ask {
    /// An ask for the points of a stream whose attributes have all pairs of a set.
    ///
    /// Refused: `NoMemory`. O(pairs), and memory for copies of them.
    pub fn for_set(
        alloc: Global,
        stream: Stream,
        service: Option<Txt>,
        attrs: &AttrSet,
        keep: Keep,
    ) -> Result<Ask, NoMemory>
        ensures { IfOk result (λ ask. ask ≡ record { stream = stream; service = service; only = attrs.now; keep = keep }) }
    {
        let only = pairs_of(alloc, attrs)?;
        Ok(Ask {
            stream,
            service,
            only,
            keep,
        })
    }

    /// Whether the points of a writer are asked for.
    pub(crate) fn is_of(&self, writer: &WriterId) -> bool
        ensures { result ≡ is_of_service self.now.service writer.now }
    {
        match &self.service {
            Some(service) => writer.service == *service,
            None => true,
        }
    }

    /// Whether attributes have each pair that is asked for.
    pub(crate) fn fits(&self, attrs: &AttrSet) -> bool
        ensures { result ≡ has_pairs self.now.only attrs.now }
    {
        self.only.as_slice().iter().all(|pair| has(attrs, pair))
    }
}

// Whether a set has a pair.
fn has(attrs: &AttrSet, pair: &(Txt, AttrValue)) -> bool
    ensures { result ≡ has_pair attrs.now pair.now }
{
    match attrs.get(pair.0.as_str()) {
        Some(value) => *value == pair.1,
        None => false,
    }
}
