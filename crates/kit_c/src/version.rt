//! Which library this is.
ghost use Rattle.std.specs.Prelude.{◌≡◌};

/// The version by its three numbers.
const MAJOR: u32 = 0;

const MINOR: u32 = 1;

const PATCH: u32 = 0;

/// Tells the version of the library as one number: 65,536 for each of its first, 256 for each of its second, and its third number. A
/// caller compares it with that of the header, which also covers how structs are laid out.
#[unsafe(no_mangle)]
pub extern "C" fn kit_version() -> u32
    ensures { result ≡ 256 }
{
    MAJOR * 65_536 + MINOR * 256 + PATCH
}
