//! What refusals say.
use crate::AdoptFault;
use attr_kit::NoMemory;
use std::alloc::Global;
use std::test::Fail;

// Each refusal of an adoption, with its whole text.
const TEXTS: [(AdoptFault, &str); 10] = [
    (
        AdoptFault::OtherService,
        "it is of another service than the archive",
    ),
    (AdoptFault::IsArchive, "it is an archive's"),
    (AdoptFault::Adopted, "it was adopted before"),
    (AdoptFault::Nothing, "no point of it is held"),
    (AdoptFault::Conflict, "a point of it is a conflict"),
    (AdoptFault::Torn, "its points are not of one time"),
    (AdoptFault::Unsound, "no export has these points"),
    (AdoptFault::OutOfRange, "a number leaves its range"),
    (
        AdoptFault::SetLimit,
        "there would be more totals than the limit",
    ),
    (AdoptFault::NoMemory, "no memory"),
];

fn says(alloc: Global, fault: AdoptFault, wanted: &str) -> Result<bool, NoMemory> {
    let told = format!(in alloc; "{fault}")?;
    Ok(told.as_str() == wanted)
}

#[test]
fn each_refusal_of_an_adoption_has_its_text(rt: HostRuntime) -> Result<(), Fail> {
    for (fault, wanted) in TEXTS {
        assert!(rt; says(rt.alloc(), fault, wanted)?);
    }
    Ok(())
}
