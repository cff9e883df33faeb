ghost use Rattle.std.specs.Prelude.{◌≡◌};
ghost use Rattle.desk_messages.specs.DeskFault.{desk_fault_status, desk_fault_word};

use conversation::Method;
use thiserror::Error;

/// Why a whole message asks nothing of the office. The conversation goes on after it.
#[derive(Clone, Copy, Debug, PartialEq, Eq, Hash, Error)]
pub enum DeskFault {
    /// No route has this target.
    #[error("no such target")]
    NoRoute,
    /// The target's route is asked by this method, and the message has another one.
    #[error("another method than the route's")]
    Method(Method),
    /// The clock gave a moment outside those of the office.
    #[error("the clock is outside the moments of the office")]
    Clock,
    /// The body is outside the rule of its route.
    #[error("the body is not what the route asks for")]
    Body,
}

impl DeskFault {
    /// The status code of its reply.
    pub fn status(self) -> u16
        ensures { result ≡ desk_fault_status self }
    {
        match self {
            DeskFault::NoRoute => 404,
            DeskFault::Method(_) => 405,
            DeskFault::Clock => 503,
            DeskFault::Body => 422,
        }
    }

    /// The word that its reply carries.
    pub fn word(self) -> &'static str
        ensures { result.now ≡ desk_fault_word self }
    {
        match self {
            DeskFault::NoRoute => "NoRoute",
            DeskFault::Method(_) => "Method",
            DeskFault::Clock => "Clock",
            DeskFault::Body => "Body",
        }
    }
}
