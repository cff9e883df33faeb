ghost use Rattle.std.specs.Prelude.{◌≡◌, ℕ, ℤ, List, IfOk, OnErr};
ghost use Rattle.conversation.specs.Exchanges.{MessageExchange, GaveUp, clocked, timed};
ghost use Rattle.conversation.specs.message.Next.{message_of};
ghost use Rattle.conversation.specs.declared.message.message_fault.MessageFault.{MessageFault};

use crate::clock::Clock;
use crate::message::message_fault::MessageFault;
use crate::message::received::Received;
use std::alloc::{AllocError, Global};

/// What answers the messages of a conversation, over an office of type `O`.
pub trait Service<O> {
    /// What an exchange does to the office.
    ghost step: { O → MessageExchange → O → Type 0 };

    /// The bytes of the reply to a message that is refused.
    ghost refusal: { MessageFault → List ℕ };

    /// The bytes of the reply to a message. The clock is read at most once, and the message is
    /// answered at the moment that it gave. Without memory there is no reply, and the message may
    /// have been answered all the same.
    fn answer<C: Clock>(
        &self,
        alloc: Global,
        office: &mut O,
        clock: &mut C,
        message: &Received<'_>,
    ) -> Result<Vec<u8>, AllocError>
        ensures ok { IfOk result (λ reply. (x : MessageExchange)
            × (x.message ≡ message_of message.now) × (x.reply ≡ reply.items)
            × timed (clocked (C.reads clock.old) step) (office.old, C.answers clock.old) x
            (office.new, C.answers clock.new)) }
        ensures err { OnErr result (GaveUp (clocked (C.reads clock.old) step)
            (office.old, C.answers clock.old)
            (message_of message.now) (office.new, C.answers clock.new)) }
        ensures stays { (given : ℤ) → C.reads clock.new given → C.reads clock.old given };

    /// The bytes of the reply to a message that is refused.
    fn refuse(&self, alloc: Global, fault: MessageFault) -> Result<Vec<u8>, AllocError>
        ensures { IfOk result (λ text. text.items ≡ refusal fault) };
}
