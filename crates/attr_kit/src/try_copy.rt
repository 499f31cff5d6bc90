//! Copies that may want memory.
ghost use Rattle.std.specs.Prelude.{◌≡◌, ◌≢◌, [], Ok, IfOk, OnErr};

use crate::{AllowList, AttrSet, AttrValue, Keep, NoMemory, Seq, Txt};

/// Values that can be copied where there is memory: the copy is equal in all that a contract sees.
///
/// Copies of truths and numbers take no memory, and so always succeed.
pub trait TryCopy: Sized + Drop {
    /// An equal value.
    fn try_copy(&self) -> Result<Self, NoMemory>
        ensures { IfOk result (λ copy. copy ≡ self.now) };
}

impl TryCopy for bool {
    fn try_copy(&self) -> Result<bool, NoMemory>
        ensures { result ≡ Ok self.now }
    {
        Ok(*self)
    }
}

impl TryCopy for usize {
    fn try_copy(&self) -> Result<usize, NoMemory>
        ensures { result ≡ Ok self.now }
    {
        Ok(*self)
    }
}

impl TryCopy for u32 {
    fn try_copy(&self) -> Result<u32, NoMemory>
        ensures { result ≡ Ok self.now }
    {
        Ok(*self)
    }
}

impl TryCopy for u64 {
    fn try_copy(&self) -> Result<u64, NoMemory>
        ensures { result ≡ Ok self.now }
    {
        Ok(*self)
    }
}

impl TryCopy for u128 {
    fn try_copy(&self) -> Result<u128, NoMemory>
        ensures { result ≡ Ok self.now }
    {
        Ok(*self)
    }
}

impl TryCopy for i128 {
    fn try_copy(&self) -> Result<i128, NoMemory>
        ensures { result ≡ Ok self.now }
    {
        Ok(*self)
    }
}

impl TryCopy for i64 {
    fn try_copy(&self) -> Result<i64, NoMemory>
        ensures { result ≡ Ok self.now }
    {
        Ok(*self)
    }
}

impl TryCopy for Txt {
    fn try_copy(&self) -> Result<Txt, NoMemory> {
        Txt::try_copy(self)
    }
}

impl<A: TryCopy, B: TryCopy> TryCopy for (A, B) {
    fn try_copy(&self) -> Result<(A, B), NoMemory> {
        Ok((self.0.try_copy()?, self.1.try_copy()?))
    }
}

impl<T: TryCopy> TryCopy for Option<T> {
    fn try_copy(&self) -> Result<Option<T>, NoMemory> {
        match self {
            Some(value) => Ok(Some(value.try_copy()?)),
            None => Ok(None),
        }
    }
}

/// Copies each value, in order. Takes no memory where there are none.
pub fn copy_all<T: TryCopy>(items: &Vec<T>) -> Result<Vec<T>, NoMemory>
    ensures value { IfOk result (λ copy. copy.items ≡ items.now.items) }
    ensures no_memory { OnErr result (items.now.items ≢ []) }
{
    let mut copy = Vec::with_capacity(*items.allocator(), items.len())?;
    for item in items {
        copy.push(item.try_copy()?)?;
    }
    Ok(copy)
}

impl<T: TryCopy> TryCopy for Seq<T> {
    fn try_copy(&self) -> Result<Seq<T>, NoMemory> {
        Ok(Seq::from_vec(copy_all(self.as_vec())?))
    }
}

impl TryCopy for AttrValue {
    fn try_copy(&self) -> Result<AttrValue, NoMemory> {
        Ok(match self {
            AttrValue::Text(text) => AttrValue::Text(text.try_copy()?),
            AttrValue::Truth(truth) => AttrValue::Truth(*truth),
            AttrValue::Whole(number) => AttrValue::Whole(*number),
        })
    }
}

impl TryCopy for AttrSet {
    fn try_copy(&self) -> Result<AttrSet, NoMemory> {
        AttrSet::try_copy(self)
    }
}

impl TryCopy for AllowList {
    fn try_copy(&self) -> Result<AllowList, NoMemory> {
        AllowList::try_copy(self)
    }
}

impl TryCopy for Keep {
    fn try_copy(&self) -> Result<Keep, NoMemory> {
        Keep::try_copy(self)
    }
}
