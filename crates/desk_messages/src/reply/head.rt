ghost use Rattle.std.specs.Prelude.{◌≡◌};
ghost use Rattle.http.specs.StatusCode.{IsStatusCode};
ghost use Rattle.desk_messages.specs.reply.Head.{allowed_by, head_of, refusal_status};

use crate::desk_fault::DeskFault;
use crate::reply::form::Form;
use crate::reply::outcome::Outcome;
use conversation::Method;
use office_rules::{Category, Refusal};
use sts_fields::Moment;

// What the head of a reply says besides the length of the body.
#[derive(Clone, Copy)]
pub(crate) struct ReplyHead {
    pub(crate) status: u16,
    pub(crate) form: Form,
    pub(crate) dated: Option<Moment>,
    pub(crate) allowed: Option<Method>,
    pub(crate) closes: bool,
}

impl ReplyHead {
    // The head for what came of a message at this moment, after which the conversation ends or not.
    pub(crate) fn of(dated: Option<Moment>, outcome: &Outcome, closes: bool) -> ReplyHead
        ensures value { result ≡ head_of dated outcome.now closes }
        ensures code { IsStatusCode result.status }
    {
        match outcome {
            Outcome::Refused(fault) => ReplyHead {
                status: fault.status(),
                form: Form::Json,
                dated,
                allowed: None,
                closes: true,
            },
            Outcome::Faulty(fault) => ReplyHead {
                status: fault.status(),
                form: Form::Json,
                dated,
                allowed: allowed_by(*fault),
                closes,
            },
            Outcome::Replied(form, Ok(answer)) => ReplyHead {
                status: 200,
                form: form.of(answer),
                dated,
                allowed: None,
                closes,
            },
            Outcome::Found(form, Ok(found)) => ReplyHead {
                status: 200,
                form: form.of_found(found),
                dated,
                allowed: None,
                closes,
            },
            Outcome::Replied(_, Err(refusal)) | Outcome::Found(_, Err(refusal)) => ReplyHead {
                status: refusal_status(*refusal),
                form: Form::Json,
                dated,
                allowed: None,
                closes,
            },
        }
    }
}

// The method that is allowed, where another one than the route's was used.
fn allowed_by(fault: DeskFault) -> Option<Method>
    ensures { result ≡ allowed_by fault }
{
    match fault {
        DeskFault::Method(allowed) => Some(allowed),
        DeskFault::NoRoute | DeskFault::Clock | DeskFault::Body => None,
    }
}

// The status code of the reply to a request that the office refused.
fn refusal_status(refusal: Refusal) -> u16
    ensures { result ≡ refusal_status refusal }
{
    match refusal.category() {
        Category::Missing => 404,
        Category::Forbidden => 409,
        Category::Unfit | Category::UnfitRow(..) => 422,
        Category::Unable => 503,
    }
}
