//! Which lines of a script were refused.
use crate::notes::MOST_NOTES;
use std::alloc::Global;

// What a line prints whose event was refused begins so.
const REFUSED: &str = "refused: ";

/// The first lines of a script whose events were refused: what each prints, by its number. They are noted for the standard error
/// while the script is done, so nothing that the script prints rests on them.
#[derive(Drop)]
pub struct Refused {
    lines: Vec<(u64, String)>,
}

impl Refused {
    /// None yet.
    pub fn new(alloc: Global) -> Refused {
        Refused {
            lines: Vec::new(alloc),
        }
    }

    /// Keeps what a line prints, if its event was refused. Where memory is refused, nothing is kept.
    pub(crate) fn note(&mut self, number: u64, printed: String) {
        if self.lines.len() < MOST_NOTES && printed.starts_with(REFUSED) {
            let _ = self.lines.push((number, printed));
        }
    }

    /// The lines, in their order.
    pub(crate) fn lines(&self) -> &[(u64, String)] {
        self.lines.as_slice()
    }
}
