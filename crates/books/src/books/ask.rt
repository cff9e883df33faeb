//! A request that is asked at a moment.

ghost use Rattle.books.specs.Asking.{IsAsked, ReplyAt};
ghost use Rattle.books.specs.Keeps.{UnlessStopped, seen};

use super::Books;
use office_rules::{Moment, Reply, Request, Stamped};
use sqlite::Alter;
use sts_token::BlockTransform;

impl<S: Alter, T: BlockTransform> Books<S, T> {
    /// Serves a request at a moment, with the nibble of the next sale's number: that number modulo
    /// 16.
    pub fn ask(&mut self, moment: Moment, request: Request) -> Reply
        ensures { UnlessStopped (ReplyAt moment request result) self.old self.new }
    {
        let at = self.stamp(moment, request);
        self.serve(&at)
    }

    // The request with its moment and its nibble.
    fn stamp(&self, moment: Moment, request: Request) -> Stamped
        ensures { IsAsked moment request (seen self.now) result }
    {
        Stamped {
            moment,
            nibble: (self.next_number % 16) as u8,
            request,
        }
    }
}
