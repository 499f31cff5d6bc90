//! What has a form.
ghost use Rattle.std.specs.Prelude.{◌≡◌, ◌<◌, ◌++◌, List, ℕ, length, IfErr, IfOk, OnOk};
ghost use Rattle.bytes_kit.specs.Codes.{IsCode};
ghost use Rattle.bytes_kit.specs.Explaining.{IsReadFault};
ghost use Rattle.bytes_kit.specs.Reading.{Reads};

use crate::DecodeFault;
use crate::reader::Reader;
use attr_kit::NoMemory;

/// Values with one form each, of at least a byte, that can be told from what follows it.
pub(crate) trait Piece: Sized + Drop {
    /// The form of a value.
    ghost code: { Self → List ℕ };

    /// Holds of the values of the type.
    ghost is_value: { Self → Type 0 };

    /// Writes the form at the end.
    fn write(&self, out: &mut Vec<u8>) -> Result<(), NoMemory>
        ensures written { OnOk result (out.new.items ≡ out.old.items ++ code self.now) }
        ensures value { OnOk result (is_value self.now) };

    /// Reads the value whose form comes next.
    fn read(reader: &mut Reader<'_>) -> Result<Self, DecodeFault>
        ensures found { Reads code is_value reader.old.rest result reader.new.rest }
        ensures value { IfOk result is_value }
        ensures end { reader.new.end ≡ reader.old.end }
        ensures fault { IfErr result (IsReadFault reader.old.end) };

    ghost is_code: { IsCode code };

    ghost has_bytes: { (x : Self) → 0 < length (code x) };
}
