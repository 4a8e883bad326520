//! Laws of dialogues.
ghost use Rattle.call_dispatch.specs.Complete.{UnfailedIsSettled, WholeInputIsAnswered};
ghost use Rattle.call_dispatch.specs.Invoked.{CallIsInvokedOnce, DialogueInvokesEachOnce};
ghost use Rattle.call_dispatch.specs.Laws.{NextIsOne, OneDialogue};

/// Two exchanges that may come at one place, and begin one input and one list of the outside's answers, are one.
#[tactic(auto, using(crate::proofs::OneReading::next_is_one))]
pub fn next_is_one()
    ensures { NextIsOne }
{}

/// An input and the answers of the outside have one settled dialogue.
pub fn one_dialogue()
    ensures { OneDialogue }
{}

/// Each Call is invoked at most once, with the graph that it spells.
#[tactic(auto, using(crate::proofs::Invoking::call_is_invoked_once))]
pub fn call_is_invoked_once()
    ensures { CallIsInvokedOnce }
{}

/// In each dialogue a message leads to at most one invocation, with the graph that it spells: in the one of `serve_connection`, and so in those that
/// stand on it.
pub fn dialogue_invokes_each_once()
    ensures { DialogueInvokesEachOnce }
{}

/// In a dialogue in which neither the source nor the sink failed, the end is one that the bytes show, or there was no memory.
pub fn unfailed_is_settled()
    ensures { UnfailedIsSettled }
{}

/// An input of whole messages whose calls all found their objects has a dialogue that answers each and then ends, unless something outside failed or there was no memory.
pub fn whole_input_is_answered()
    ensures { WholeInputIsAnswered }
{}
