//! Many requests, one after another.

ghost use Rattle.std.specs.Prelude.{◌≡◌, IfErr, IfOk, OnErr};
ghost use Rattle.books.specs.InTurn.{LeaveTables, ServeInTurn};
ghost use Rattle.books.specs.Keeps.{UnlessStopped};

use super::Books;
use office_rules::{Refusal, Reply, Stamped};
use sqlite::Alter;
use sts_token::BlockTransform;
use vend_core::life_law;

impl<S: Alter, T: BlockTransform> Books<S, T> {
    /// Serves requests in their order, each as `serve` does: their replies.
    ///
    /// # Errors
    /// `Memory`, where there is no room for all replies. Nothing was done then.
    pub fn serve_all(&mut self, ats: &[Stamped]) -> Result<Vec<Reply>, Refusal>
        ensures served { IfOk result (λ replies.
            ServeInTurn ats.now replies.items self.old self.new) }
        ensures leaves { UnlessStopped LeaveTables self.old self.new }
        ensures memory { IfErr result (λ refusal. refusal ≡ Refusal.Memory) }
        ensures untouched { OnErr result (self.new ≡ self.old) }
    {
        life_law();
        let mut replies = Vec::with_capacity(self.alloc, ats.len())?;
        for at in ats {
            let reply = self.serve(at);
            replies.push_reserved(reply);
        }
        Ok(replies)
    }
}
