ghost use Rattle.std.specs.Prelude.{◌≡◌, Some, ℕ, List, []};
ghost use Rattle.bean_words.specs.declared.op.Op.{Op};
ghost use Rattle.bean_words.specs.declared.reply.Reply.{Reply};
ghost use Rattle.session.specs.declared.faults.End.{End};
ghost use Rattle.session.specs.Items.{Response, IsTranscript};
ghost use Rattle.hall.specs.declared.ticket.NotedAct.{NotedAct};
ghost use Rattle.conversation.specs.declared.stage.Stage.TheVariants.{Left};
ghost use Rattle.conversation.specs.Talks.{ConversationState};
ghost use Rattle.conversation.specs.Conversing.{Converses, noted_replies, replies_among};

use crate::session_ticket::SessionTicket;

/// A conversation that has left at its client's quit, or at the end of its input, and has sent all, has told the transcript of
/// all that it was fed, in the profile of its session. The replies there are those of acts of which its ticket is.
pub fn whole_transcript<T: SessionTicket>()
    ensures { (fed given : List ℕ) (talk : ConversationState T) (end : End) → Converses T.keeping fed given talk →
        talk.stage ≡ Left (Some end) → talk.session.unsent ≡ [] →
        (answers : List Response) × IsTranscript talk.session.profile fed answers given end
        × ((acts : List (NotedAct Op Reply)) × T.keeping.IsOf talk.ticket acts
        × (noted_replies acts ≡ replies_among answers)) }
{}
