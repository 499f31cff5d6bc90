//! What has a form behind what came before it.
ghost use Rattle.std.specs.Prelude.{◌≡◌, ◌<◌, ◌++◌, List, ℕ, length, IfErr, IfOk, OnOk};
ghost use Rattle.bytes_kit.specs.Explaining.{IsReadFault};
ghost use Rattle.bytes_kit.specs.Past.{Past};
ghost use Rattle.bytes_kit.specs.PastLaws.{IsCodeBehind};
ghost use Rattle.bytes_kit.specs.Reading.{Reads};

use crate::DecodeFault;
use crate::history::History;
use crate::reader::Reader;
use attr_kit::NoMemory;

/// Values with texts: behind whatever came before, each has one form of at least a byte, which can be told from what follows it.
pub(crate) trait Passage: Sized + Drop {
    /// The form of a value, behind what came before.
    ghost code: { Past → Self → List ℕ };

    /// What came before, once the value came too.
    ghost past: { Past → Self → Past };

    /// Holds of the values of the type.
    ghost is_value: { Self → Type 0 };

    /// Writes the form at the end.
    fn write_behind(&self, history: &mut History, out: &mut Vec<u8>) -> Result<(), NoMemory>
        ensures written { OnOk result (out.new.items ≡ out.old.items ++ code history.old self.now) }
        ensures history { OnOk result (history.new ≡ past history.old self.now) }
        ensures value { OnOk result (is_value self.now) };

    /// Reads the value whose form comes next.
    fn read_behind(reader: &mut Reader<'_>, history: &mut History) -> Result<Self, DecodeFault>
        ensures found { Reads (code history.old) is_value reader.old.rest result reader.new.rest }
        ensures value { IfOk result is_value }
        ensures history { IfOk result (λ x. history.new ≡ past history.old x) }
        ensures end { reader.new.end ≡ reader.old.end }
        ensures fault { IfErr result (IsReadFault reader.old.end) };

    ghost is_code: { IsCodeBehind code };

    ghost has_bytes: { (p : Past) (x : Self) → 0 < length (code p x) };
}
