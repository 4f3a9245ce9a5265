// What the commands have set, and what that makes of a key.
ghost use Rattle.std.specs.Prelude.{◌≡◌};
ghost use Rattle.rcte.specs.Taking.{is_break, is_send, is_skipped, flushes};
ghost use Rattle.rcte.specs.Refinement.{view_rcte, RefinesState, view_orders, ordering, is_plain_key};

use crate::{Orders, Rcte};
use bodies::RcteCommand;
use codes::CR;
use keys::Key;

// A command sets actions and classes.
pub fn ordered(e: Rcte, c: RcteCommand) -> Rcte
    ensures { RefinesState (ordering c (view_rcte e)) e result }
{
    match c {
        RcteCommand::Repeat => e,
        RcteCommand::Perform(action, breaks, sends) => Rcte {
            action,
            breaks: breaks.unwrap_or(e.breaks),
            sends: sends.unwrap_or(e.sends),
            ..e
        },
    }
}

impl Orders {
    // Its class is set, or it is a Command.
    #[tactic(auto, unfolding(crate::specs::Taking::is_break))]
    pub fn is_break(self, k: Key) -> bool
        ensures { result ≡ is_break (view_orders self) k }
    {
        keys::is_command(k) || keys::sets(self.breaks, keys::key_class(k))
    }

    #[tactic(auto, unfolding(crate::specs::Taking::is_send))]
    fn is_send(self, k: Key) -> bool
        ensures { result ≡ is_send (view_orders self) k }
    {
        keys::sets(self.sends, keys::key_class(k))
    }

    // A break is skipped by bit 1, other keys by bit 2.
    pub fn is_skipped(self, k: Key) -> bool
        ensures { result ≡ is_skipped (view_orders self) k }
    {
        if self.is_break(k) {
            self.action.skipbreak
        } else {
            self.action.skiptext
        }
    }

    // A break or a transmission character sends all gathered bytes.
    pub fn flushes(self, k: Key) -> bool
        ensures { result ≡ flushes (view_orders self) k }
    {
        self.is_break(k) || self.is_send(k)
    }

    // A character that is its own byte on the paper and on the wire, and neither breaks nor is sent. IAC is left out with all
    // that do not print.
    #[tactic(auto, unfolding(crate::specs::Refinement::is_plain_key, crate::specs::Taking::is_break, crate::specs::Taking::is_send))]
    pub fn is_plain_key(self, b: u8) -> bool
        ensures { result ≡ is_plain_key (view_orders self) b }
    {
        let class = keys::class_of(b);
        if keys::sets(self.breaks, class) || keys::sets(self.sends, class) {
            return false;
        }
        keys::prints(b) && b != CR
    }
}
