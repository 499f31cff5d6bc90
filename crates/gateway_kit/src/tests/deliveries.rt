//! The incarnations of a gateway.
use super::builders::{newest, single, told, writer};
use crate::Gateway;
use std::alloc::Global;
use std::test::Fail;

// A gateway that took a late export, an early one, and one after a restart at 400.
fn restarted(alloc: Global) -> Result<Gateway, Fail> {
    let early = single(alloc, 1, 100, 200, 7)?;
    let late = single(alloc, 1, 100, 300, 12)?;
    let again = single(alloc, 1, 400, 500, 2)?;
    told(alloc, 1, &[&late, &early, &again])
}

#[test]
fn each_start_is_an_incarnation_of_its_own(rt: HostRuntime) -> Result<(), Fail> {
    let alloc = rt.alloc();
    let gateway = restarted(alloc)?;
    assert!(rt; gateway.len() == 2);
    assert!(rt; newest(alloc, &gateway, 1, 100)? == Some(300));
    assert!(rt; newest(alloc, &gateway, 1, 400)? == Some(500));
    assert!(rt; newest(alloc, &gateway, 1, 50)?.is_none());
    Ok(())
}

#[test]
fn a_forgotten_incarnation_is_held_no_more(rt: HostRuntime) -> Result<(), Fail> {
    let alloc = rt.alloc();
    let mut gateway = restarted(alloc)?;
    let writer = writer(alloc, 1)?;
    assert!(rt; gateway.forget(&writer, 50) == 0);
    assert!(rt; gateway.forget(&writer, 100) == 1);
    assert!(rt; gateway.forget(&writer, 100) == 0);
    assert!(rt; gateway.len() == 1);
    assert!(rt; newest(alloc, &gateway, 1, 100)?.is_none());
    assert!(rt; newest(alloc, &gateway, 1, 400)? == Some(500));
    gateway.take(&single(alloc, 1, 100, 200, 7)?)?;
    assert!(rt; newest(alloc, &gateway, 1, 100)? == Some(200));
    Ok(())
}

#[test]
fn incarnations_and_services_are_listed_in_order(rt: HostRuntime) -> Result<(), Fail> {
    let alloc = rt.alloc();
    let again = single(alloc, 1, 400, 500, 2)?;
    let till = single(alloc, 3, 100, 250, 1)?;
    let other = single(alloc, 2, 100, 300, 1)?;
    let early = single(alloc, 1, 100, 200, 7)?;
    let gateway = told(alloc, 1, &[&again, &till, &other, &early])?;
    let rows = [
        ("shop", 100, 200, 1),
        ("shop", 400, 500, 1),
        ("till", 100, 300, 1),
        ("till", 100, 250, 1),
    ];
    assert!(rt; gateway.incarnations_len() == rows.len());
    for (listed, row) in gateway.incarnations().zip(rows) {
        let service = listed.writer.service.as_str();
        assert!(rt; (service, listed.start, listed.newest, listed.points) == row);
    }
    let mut services = gateway.services();
    assert!(rt; services.next() == Some("shop"));
    assert!(rt; services.next() == Some("till"));
    assert!(rt; services.next().is_none());
    Ok(())
}
