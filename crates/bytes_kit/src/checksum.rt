//! The checksum of bytes.
ghost use Rattle.std.specs.Prelude.{◌≡◌};
ghost use Rattle.bytes_kit.specs.Checksum.{checksum};

const MODULUS: u64 = 65521;

// Above this the sums are brought below the modulus, so that they stay within 64 bits.
const MOST: u64 = 1 << 62;

#[tactic(auto, unfolding(crate::specs::Checksum::sums))]
/// Adler-32 (RFC 1950, section 8.2). O(n), with no division for most bytes; takes no memory.
pub(crate) fn checksum(bytes: &[u8]) -> u32
    ensures { result ≡ checksum bytes.now }
{
    let mut low = 1;
    let mut high = 0;
    for byte in bytes {
        low += u64::from(*byte);
        high += low;
        if high >= MOST {
            low %= MODULUS;
            high %= MODULUS;
        }
    }
    (high % MODULUS * 65536 + low % MODULUS) as u32
}
