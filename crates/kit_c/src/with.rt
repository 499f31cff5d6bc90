//! What is in handles, for the length of a call.
//!
//! A handle of one kind has that or nothing, so no handle that the library left is told by `WRONG_KIND`: it stands for one of another
//! kind, which C can force by a cast.

/// Takes what a handle has, makes a call on it, and puts it back. A handle that has nothing is told by `NOTHING`.
macro_rules! with {
    ($alloc:ident, $handle:ident => $kind:ident($held:ident), $call:expr) => {{
        let Some(mut content) = $handle.handle.take($alloc) else {
            return NOTHING;
        };
        let Content::$kind($held) = &mut *content else {
            $handle.handle.put(content);
            return WRONG_KIND;
        };
        let outcome = $call;
        $handle.handle.put(content);
        outcome
    }};
}

/// The same of two handles.
macro_rules! with_two {
    ($alloc:ident, $handle:ident => $kind:ident($held:ident), $other:ident => $with:ident($had:ident), $call:expr) => {{
        let Some(mut content) = $handle.handle.take($alloc) else {
            return NOTHING;
        };
        let Some(mut beside) = $other.handle.take($alloc) else {
            $handle.handle.put(content);
            return NOTHING;
        };
        let Content::$kind($held) = &mut *content else {
            $handle.handle.put(content);
            $other.handle.put(beside);
            return WRONG_KIND;
        };
        let Content::$with($had) = &mut *beside else {
            $handle.handle.put(content);
            $other.handle.put(beside);
            return WRONG_KIND;
        };
        let outcome = $call;
        $handle.handle.put(content);
        $other.handle.put(beside);
        outcome
    }};
}

/// Fills an empty handle with what is made for it, where memory is given. One that has something is told by `FULL`.
macro_rules! fill {
    ($alloc:ident, $into:ident => $outcome:expr, $made:ident => $content:expr) => {{
        if $into.handle.full {
            return FULL;
        }
        match $outcome {
            Ok($made) => $into.handle.fill($alloc, $content),
            Err(_) => NO_MEMORY,
        }
    }};
}

/// The same of what may be refused for other reasons, too.
macro_rules! fill_or_tell {
    ($alloc:ident, $into:ident => $outcome:expr, $made:ident => $content:expr) => {{
        if $into.handle.full {
            return FULL;
        }
        match $outcome {
            Ok($made) => $into.handle.fill($alloc, $content),
            Err(fault) => fault.code(),
        }
    }};
}

/// Fills an empty handle with what was made in a box for it, or answers with the code of why it was not, and tells where.
macro_rules! put {
    ($into:ident => $outcome:expr, $fault:ident => $refusal:expr, $place:ident) => {{
        if $into.handle.full {
            return FULL;
        }
        match $outcome {
            Ok(made) => {
                $into.handle.put(made);
                OK
            }
            Err($fault) => code_with_place($refusal, $place),
        }
    }};
}

/// What was made, or the code of why it was not.
macro_rules! or_code {
    ($outcome:expr) => {
        match $outcome {
            Ok(made) => made,
            Err(fault) => return fault.code(),
        }
    };
}

/// Tells what a call found, or answers with the code of why it did not.
macro_rules! tell {
    ($told:ident => $outcome:expr) => {
        match $outcome {
            Ok(found) => {
                *$told = found;
                OK
            }
            Err(fault) => fault.code(),
        }
    };
}

/// Adds an item to the list that a handle has; one that has nothing begins with it.
macro_rules! add_to {
    ($alloc:ident, $handle:ident => $kind:ident, $item:expr) => {{
        let item = $item;
        let Some(mut content) = $handle.handle.take($alloc) else {
            let mut list = Seq::new($alloc);
            return match push($alloc, &mut list, item) {
                Ok(()) => $handle.handle.fill($alloc, Content::$kind(list)),
                Err(_) => NO_MEMORY,
            };
        };
        let Content::$kind(list) = &mut *content else {
            $handle.handle.put(content);
            return WRONG_KIND;
        };
        let outcome = push($alloc, list, item);
        $handle.handle.put(content);
        match outcome {
            Ok(()) => OK,
            Err(_) => NO_MEMORY,
        }
    }};
}

/// A copy of the list that a handle has, of no items where it has nothing.
macro_rules! copy_of {
    ($alloc:ident, $handle:ident => $kind:ident) => {{
        match $handle.handle.take($alloc) {
            None => Seq::new($alloc),
            Some(content) => {
                let Content::$kind(list) = &*content else {
                    $handle.handle.put(content);
                    return WRONG_KIND;
                };
                let copied = list.try_copy();
                $handle.handle.put(content);
                match copied {
                    Ok(copy) => copy,
                    Err(_) => return NO_MEMORY,
                }
            }
        }
    }};
}

pub(crate) use add_to;
pub(crate) use copy_of;
pub(crate) use fill;
pub(crate) use fill_or_tell;
pub(crate) use or_code;
pub(crate) use put;
pub(crate) use tell;
pub(crate) use with;
pub(crate) use with_two;
