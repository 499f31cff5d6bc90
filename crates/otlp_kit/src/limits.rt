//! How much a text, and how many attributes, an export has whose request is written or read.
ghost use Rattle.std.specs.Prelude.{◌≡◌};
ghost use Rattle.otlp_kit.specs.Limits.{is_long, are_many};

// OpenTelemetry's SDKs have names of at most 255 characters and 128 attributes.
const MOST_BYTES: usize = 1024;

const MOST_ATTRIBUTES: usize = 128;

/// Whether a service, a scope, a name or a unit has more bytes than it may.
pub(crate) fn is_long(text: &str) -> bool
    ensures { result ≡ is_long text.now }
{
    text.len() > MOST_BYTES
}

/// Whether a point has more attributes than it may.
pub(crate) fn are_many<A>(attributes: &[A]) -> bool
    ensures { result ≡ are_many attributes.now }
{
    attributes.len() > MOST_ATTRIBUTES
}
