//! A list of more values than stand on one shelf.
ghost use Rattle.std.specs.Prelude.{◌≡◌};
ghost use Rattle.std.specs.Ordering.{nat_cmp};

use crate::{Shelves, Target};
use std::alloc::Global;
use std::cmp::Ordering;
use std::test::Fail;

// A number that is looked for.
#[derive(Clone, Copy)]
struct Number {
    number: u64,
}

impl Target<u64> for Number {
    ghost order_of = { λ target value. nat_cmp value target.number };

    fn order(&self, value: &u64) -> Ordering {
        value.cmp(&self.number)
    }
}

fn place_of(list: &Shelves<u64>, number: u64) -> Result<usize, usize> {
    list.search(&Number { number })
}

// The first even numbers, put in without order.
fn evens(alloc: Global) -> Result<Shelves<u64>, Fail> {
    let mut list = Shelves::new(alloc);
    for step in 0..1000 {
        let number = step * 389 % 1000 * 2;
        if let Err(place) = list.search(&Number { number }) {
            list.insert(place, number, 0)?;
        }
    }
    Ok(list)
}

fn value_at(list: &Shelves<u64>, index: usize) -> Option<u64> {
    if index < list.len() {
        Some(*list.get(index))
    } else {
        None
    }
}

fn run_at(list: &Shelves<u64>, index: usize) -> &[u64] {
    if index < list.len() {
        list.run(index)
    } else {
        &[]
    }
}

fn change(list: &mut Shelves<u64>, index: usize, value: u64) {
    if index < list.len() {
        *list.get_mut(index) = value;
    }
}

fn raise(list: &mut Shelves<u64>, index: usize, bound: u64) {
    if index < list.len() {
        list.raise(index, bound);
    }
}

fn next_above(list: &Shelves<u64>, index: usize, number: u64) -> Option<usize> {
    if index <= list.len() {
        Some(list.next_above(index, number))
    } else {
        None
    }
}

fn take(list: &mut Shelves<u64>, index: usize) -> Option<u64> {
    if index < list.len() {
        Some(list.remove(index))
    } else {
        None
    }
}

#[test]
fn values_are_found_and_walked_over_shelves(rt: HostRuntime) -> Result<(), Fail> {
    let list = evens(rt.alloc())?;
    assert!(rt; list.len() == 1000 && !list.is_empty());
    for (number, place) in [
        (0, Ok(0)),
        (1, Err(1)),
        (510, Ok(255)),
        (512, Ok(256)),
        (1023, Err(512)),
        (1998, Ok(999)),
        (1999, Err(1000)),
    ] {
        assert!(rt; place_of(&list, number) == place, "at {number}");
    }
    for (from, until, count, first, last) in [
        (0, 1000, 1000, Some(0), Some(1998)),
        (255, 258, 3, Some(510), Some(514)),
        (999, 5000, 1, Some(1998), Some(1998)),
        (7, 7, 0, None, None),
        (1000, 1001, 0, None, None),
    ] {
        let walk = list.walk(from, until);
        assert!(rt; walk.count() == count, "from {from}");
        assert!(rt;
            walk.copied().next() == first && walk.copied().last() == last,
            "from {from}"
        );
    }
    Ok(())
}

#[test]
fn a_value_is_changed_passed_over_and_taken(rt: HostRuntime) -> Result<(), Fail> {
    let mut list = evens(rt.alloc())?;
    raise(&mut list, 700, 9);
    for (index, number, place) in [
        (0, 9, 1000),
        (0, 8, 700),
        (700, 8, 700),
        (701, 8, 1000),
        (1000, 0, 1000),
    ] {
        assert!(rt;
            next_above(&list, index, number) == Some(place),
            "from {index}"
        );
    }
    change(&mut list, 700, 1401);
    assert!(rt;
        value_at(&list, 700) == Some(1401)
            && run_at(&list, 700).first() == Some(&1401)
            && run_at(&list, 700).len() <= 8
    );
    assert!(rt;
        take(&mut list, 700) == Some(1401) && place_of(&list, 1400) == Err(700) && list.len() == 999
    );
    for _ in 0..999 {
        let _ = take(&mut list, 0);
    }
    assert!(rt; list.is_empty() && value_at(&list, 0).is_none());
    list.insert(0, 5, 3)?;
    assert!(rt;
        value_at(&list, 0) == Some(5)
            && next_above(&list, 0, 3) == Some(1)
            && next_above(&list, 0, 2) == Some(0)
    );
    Ok(())
}
