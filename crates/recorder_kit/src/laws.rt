//! What taking a log in stands for.
ghost use Rattle.recorder_kit.specs.Log.{PiecesAreTheWhole};

/// A log that is taken in by pieces, one after the other, comes to what it comes to at once: the tally is the same, as many recordings
/// were recorded and refused, and the first that was refused is that of the first piece with one, by its place in the whole log.
#[tactic(auto, using(crate::proofs::Pieces::pieces_are_the_whole))]
pub fn pieces_are_the_whole()
    ensures { PiecesAreTheWhole }
{}
