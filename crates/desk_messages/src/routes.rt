//! The routes of the desk: which kind of ask a target names.

ghost use Rattle.std.specs.Prelude.{◌≡◌, OnOk};
ghost use Rattle.records.specs.Front.{IsFound};
ghost use Rattle.asks.specs.Ask.{row_method};
ghost use Rattle.desk_messages.specs.Routes.{FindsKind, IsNamed, IsRouted, pattern_of, table};
ghost use Rattle.desk_messages.specs.Routes.{with_kind};

use crate::desk_fault::DeskFault;
use crate::named::Named;
use asks::AskKind;
use conversation::Method;
use matchit::Router;
use std::alloc::{AllocError, Global};
use std::str;

/// The routes of the desk. Memory is taken once, where they are made.
#[derive(Drop)]
pub struct Routes {
    router: Router<AskKind>,
    ghost is_table: { router ≡ table },
}

impl Routes {
    /// The routes, or none for want of memory.
    pub fn new(alloc: Global) -> Result<Routes, AllocError> {
        let mut router = Router::new(alloc);
        for kind in AskKind::all() {
            insert(alloc, &mut router, *kind)?;
        }
        Ok(Routes { router })
    }

    /// What a target names of a kind that this method asks for, HEAD for GET; or why it names
    /// nothing: `NoRoute` or `Method`.
    pub fn route_of(&self, target: &[u8], method: Method) -> Result<Named, DeskFault>
        ensures { IsRouted target.now method result }
    {
        match self.named_by(target) {
            Some(named) => asked_by(named, target, method),
            None => Err(DeskFault::NoRoute),
        }
    }

    // What a target names.
    fn named_by(&self, target: &[u8]) -> Option<Named>
        ensures { IsFound (IsNamed target.now) result }
    {
        match self.kind_at(target) {
            Some(kind) => match kind.values_in(target) {
                Some(values) => Some(Named { kind, values }),
                None => None,
            },
            None => None,
        }
    }

    // The kind whose pattern a target matches.
    fn kind_at(&self, target: &[u8]) -> Option<AskKind>
        ensures { IsFound (FindsKind target.now) result }
    {
        let Ok(text) = str::from_utf8(target) else {
            return None;
        };
        match self.router.at(text) {
            Ok(found) => Some(*found.value),
            Err(_) => None,
        }
    }
}

// What a target names, if this method asks for it.
fn asked_by(named: Named, target: &[u8], method: Method) -> Result<Named, DeskFault>
    requires { IsNamed target.now named }
    ensures { IsRouted target.now method result }
{
    let own = named.kind.endpoint().method;
    if own == row_method(method) {
        Ok(named)
    } else {
        Err(DeskFault::Method(own))
    }
}

// The method of the kinds that a message of this method asks for.
fn row_method(method: Method) -> Method
    ensures { result ≡ row_method method }
{
    match method {
        Method::Get | Method::Head => Method::Get,
        Method::Post => Method::Post,
        Method::Delete => Method::Delete,
    }
}

// Inserts the pattern of a kind.
fn insert(alloc: Global, router: &mut Router<AskKind>, kind: AskKind) -> Result<(), AllocError>
    ensures { OnOk result (router.new ≡ with_kind router.old kind) }
{
    let mut pattern = Vec::new(alloc);
    kind.put_pattern(&mut pattern)?;
    match str::from_utf8(&pattern) {
        Ok(pattern) => insert_text(router, pattern, kind),
        Err(_) => Err(AllocError),
    }
}

// Inserts this text, which is the pattern of a kind.
#[tactic(auto, using(crate::proofs::RouteLemmas::with_inserted))]
fn insert_text(router: &mut Router<AskKind>, pattern: &str, kind: AskKind) -> Result<(), AllocError>
    requires { pattern.now ≡ pattern_of kind }
    ensures { OnOk result (router.new ≡ with_kind router.old kind) }
{
    match router.insert(pattern, kind) {
        Ok(()) => Ok(()),
        Err(_) => Err(AllocError),
    }
}
