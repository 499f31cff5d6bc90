//! What is looked for before points are copied.
ghost use Rattle.std.specs.Prelude.{◌≡◌, ◌≢◌, [], ◌∷◌};
ghost use Rattle.attr_kit.specs.Refusing.{first, when};
ghost use Rattle.archive_kit.specs.declared.adopt_fault.AdoptFault.TheVariants as faults;

use crate::AdoptFault;

/// Which refusals fit an incarnation, of those that need no copies.
#[derive(Clone, Copy)]
pub(crate) struct Early {
    pub(crate) other_service: bool,
    pub(crate) of_archive: bool,
    pub(crate) adopted: bool,
    pub(crate) nothing: bool,
    pub(crate) conflict: bool,
    pub(crate) torn: bool,
}

/// The first of them.
pub(crate) fn first_fault(early: Early) -> Option<AdoptFault>
    ensures never { result ≢ Some AdoptFault.NoMemory }
    ensures value { result ≡ first (when early.other_service faults.OtherService
        ∷ when early.of_archive faults.IsArchive
        ∷ when early.adopted faults.Adopted
        ∷ when early.nothing faults.Nothing
        ∷ when early.conflict faults.Conflict
        ∷ when early.torn faults.Torn
        ∷ []) }
{
    if early.other_service {
        return Some(AdoptFault::OtherService);
    }
    if early.of_archive {
        return Some(AdoptFault::IsArchive);
    }
    if early.adopted {
        return Some(AdoptFault::Adopted);
    }
    if early.nothing {
        return Some(AdoptFault::Nothing);
    }
    if early.conflict {
        return Some(AdoptFault::Conflict);
    }
    if early.torn {
        return Some(AdoptFault::Torn);
    }
    None
}
