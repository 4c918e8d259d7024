//! What holds of all sessions.
ghost use Rattle.gf_session.specs.Transcripts.{AreDetermined, HaveTranscripts};

use crate::moves::Moves;

/// Lines have one transcript at most, where a choice leads to one state at most and one text is told of a state; and a choice followed by
/// `u` gives the trail before it.
pub fn transcripts_are_determined<M: Moves>(moves: &M)
    ensures { AreDetermined (M.rules moves.now) }
{
    let _ = moves;
}

/// Lines before `q` have a transcript, where each number leads to a state or nowhere and something is told of each state.
pub fn transcripts_exist<M: Moves>(moves: &M)
    ensures { HaveTranscripts (M.rules moves.now) (M.is_state moves.now) }
{
    let _ = moves;
}
