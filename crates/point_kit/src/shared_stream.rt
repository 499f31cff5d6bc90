//! A stream that many points share.
ghost use Rattle.std.specs.Prelude.{◌≡◌, IfOk};
ghost use Rattle.point_kit.specs.contracts.stream.StreamPartialEq.TheImpl as equal;
ghost use Rattle.point_kit.specs.contracts.stream.StreamPartialEq.TheImpl.Laws as equal_laws;
ghost use Rattle.point_kit.specs.contracts.stream.StreamEq.TheImpl.Laws as whole_laws;
ghost use Rattle.point_kit.specs.contracts.stream.StreamPartialOrd.TheImpl as partial;
ghost use Rattle.point_kit.specs.contracts.stream.StreamPartialOrd.TheImpl.Laws as partial_laws;
ghost use Rattle.point_kit.specs.contracts.stream.StreamOrd.TheImpl as order;
ghost use Rattle.point_kit.specs.contracts.stream.StreamOrd.TheImpl.Laws as order_laws;
ghost use Rattle.point_kit.specs.SharedStream.{stream_hash, hash_writes, hash_alike};

use crate::Stream;
use attr_kit::NoMemory;
use std::alloc::Global;
use std::cmp::Ordering;
use std::fmt;
use std::fmt::{Debug, Formatter, Write};
use std::hash::{FoldHasher, Hash, Hasher};
use std::marker::Model;
use std::sync::Arc;

/// A stream that many points share: one allocation, however many hold it, and of whatever thread. Contracts see the
/// [`Stream`], by which it is compared, ordered and hashed. Its hash is kept beside it, so that it is cheap as a key and
/// streams that differ mostly differ by one number.
#[derive(Drop)]
pub struct SharedStream {
    stream: Arc<Stream>,
    hash: u64,
}

impl Model for SharedStream {
    ghost use Rattle.point_kit.specs.declared.stream.Stream.{Stream};

    ghost Value = { Stream };

    ghost use Rattle.std.specs.Prelude.{◌≡◌};
    ghost use Rattle.point_kit.specs.SharedStream.{stream_hash};

    ghost view = { λ s. s.stream.value };

    ghost invariant = { λ s. s.hash ≡ stream_hash s.stream.value };
}

// The hash of a stream, which a shared one keeps.
fn hash_of(stream: &Stream) -> u64
    ensures { result ≡ stream_hash stream.now }
{
    let mut state = FoldHasher::default();
    stream.hash(&mut state);
    state.finish()
}

impl SharedStream {
    /// One allocation. Refused where memory is.
    pub fn new(alloc: Global, stream: Stream) -> Result<SharedStream, NoMemory>
        ensures value { IfOk result (λ s. s ≡ stream) }
    {
        let hash = hash_of(&stream);
        Ok(SharedStream {
            stream: Arc::new(alloc, stream)?,
            hash,
        })
    }

    /// The stream. Takes no memory.
    pub fn get(&self) -> &Stream
        ensures value { result.now ≡ self.now }
    {
        &*self.stream
    }

    /// One more owner of the same stream: no text is copied, and no memory taken. Refused only where there are 2^63 - 1.
    pub fn try_copy(&self) -> Result<SharedStream, NoMemory>
        ensures value { IfOk result (λ copy. copy ≡ self.now) }
    {
        Ok(SharedStream {
            stream: Arc::try_clone(&self.stream)?,
            hash: self.hash,
        })
    }
}

impl PartialEq for SharedStream {
    ghost eq = { (equal.ghosts).eq };

    ghost laws = { equal_laws.laws-law };

    fn eq(&self, other: &SharedStream) -> bool {
        self.hash == other.hash && *self.stream == *other.stream
    }
}

impl Eq for SharedStream {
    ghost laws = { whole_laws.laws-law };
}

impl PartialOrd for SharedStream {
    ghost partial_cmp = { (partial.ghosts).partial_cmp };

    ghost laws = { partial_laws.laws-law };

    fn partial_cmp(&self, other: &SharedStream) -> Option<Ordering> {
        self.get().partial_cmp(other.get())
    }
}

impl Ord for SharedStream {
    ghost cmp = { (order.ghosts).cmp };

    ghost total = { order_laws.total-law };

    ghost matches_partial_cmp = { order_laws.matches_partial_cmp-law };

    ghost matches_eq = { order_laws.matches_eq-law };

    fn cmp(&self, other: &SharedStream) -> Ordering {
        self.get().cmp(other.get())
    }
}

impl Hash for SharedStream {
    ghost hash_input = { hash_writes };

    ghost respects_eq = { hash_alike };

    fn hash<H: Hasher>(&self, state: &mut H) {
        self.hash.hash(state);
    }
}

impl Debug for SharedStream {
    fn fmt<W: Write>(&self, f: &mut Formatter<W>) -> fmt::Result {
        self.get().fmt(f)
    }
}
