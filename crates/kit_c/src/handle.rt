//! Handles, as C holds them.
ghost use Rattle.std.specs.Prelude.{◌≡◌, ◌≢◌, pos, Some, None};
ghost use Rattle.std.specs.Option.{is_some};
ghost use Rattle.kit_c.specs.Owned.{box_value};
ghost use Rattle.kit_c.specs.Codes.{no_memory};

use crate::content::Content;
use crate::fault::{NO_MEMORY, OK};
use crate::inner::Inner;
use crate::loose::Loose;
use std::alloc::Global;

/// A handle: one thing on the heap, or nothing. Of no bytes but 0 it is empty.
#[repr(C)]
#[derive(Drop)]
pub struct KitHandle {
    pub full: bool,
    pub inner: Inner,
    ghost agrees: { full ≡ is_some inner.value },
}

impl KitHandle {
    fn of(content: Box<Content, Global>) -> KitHandle
        ensures { result.inner.value ≡ Some content.value }
    {
        KitHandle {
            full: true,
            inner: Inner::full(Loose::of(content)),
        }
    }

    /// A handle that has nothing.
    pub(crate) fn empty(alloc: Global) -> KitHandle
        ensures { result.inner.value ≡ None }
    {
        KitHandle {
            full: false,
            inner: Inner::empty(alloc),
        }
    }

    /// What the handle has, which it then no longer has.
    pub(crate) fn take(&mut self, alloc: Global) -> Option<Box<Content, Global>>
        ensures value { box_value result ≡ self.old.inner.value }
        ensures empty { self.new.inner.value ≡ None }
    {
        let was = std::mem::replace(self, KitHandle::empty(alloc));
        let KitHandle { full, inner } = was;
        if full {
            Some(inner.into_loose().into_box())
        } else {
            None
        }
    }

    /// From now on the handle has this.
    pub(crate) fn put(&mut self, content: Box<Content, Global>)
        requires { self.old.inner.value ≡ None }
        ensures { self.new.inner.value ≡ Some content.value }
    {
        *self = KitHandle::of(content);
    }

    /// From now on the handle has this, if memory is given.
    pub(crate) fn fill(&mut self, alloc: Global, content: Content) -> i32
        requires { self.old.inner.value ≡ None }
        ensures code { (result ≢ pos 0) → result ≡ no_memory }
        ensures value { result ≡ pos 0 → self.new.inner.value ≡ Some content }
        ensures unchanged { result ≢ pos 0 → self.new.inner.value ≡ None }
    {
        match Box::new(alloc, content) {
            Ok(content) => {
                self.put(content);
                OK
            }
            Err(_) => NO_MEMORY,
        }
    }
}

/// Gives up what a handle has. The handle is then empty, and may be used again; one that is empty stays so. Never refused.
#[unsafe(no_mangle)]
pub extern "C" fn kit_free(alloc: Global, handle: &mut KitHandle)
    ensures { handle.new.inner.value ≡ None }
{
    drop(handle.take(alloc));
}
