//! Why a script ended early, and what is said of its bad line.
use script_kit::{Reason, ScriptFault};

/// Why a script ended early, and what is said of its bad line.
#[derive(Debug, Drop)]
pub struct Ended {
    /// What it ended with.
    pub fault: ScriptFault,
    /// Why the line is bad, at [`BadLine`](ScriptFault::BadLine).
    pub reason: Option<Reason>,
    /// The same in words; `None` where memory was refused for them.
    pub sentence: Option<String>,
}

impl From<ScriptFault> for Ended {
    ghost use Rattle.std.specs.Prelude.{◌≡◌, None};

    ghost from_gives = { λ fault end. end ≡ record { fault = fault; reason = None; sentence = None } };

    fn from(fault: ScriptFault) -> Ended {
        Ended {
            fault,
            reason: None,
            sentence: None,
        }
    }
}
