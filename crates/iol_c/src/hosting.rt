//! Makes sessions in boxes, and has them serve requests.

ghost use Rattle.std.specs.Prelude.{◌≡◌, IfSome};
ghost use Rattle.iol_c.specs.Hosting.{Hosts, IsBegunIn, IsMade};

use crate::apart::Apart;
use crate::kept::Kept;
use iol_front::Name;
use iol_handed::{
    Ask, FoundJournal, HandedMaster, Opening, Session, SessionAnswer, UnknownFlash, is_end,
};
use std::alloc::Global;

/// Has a session serve a request. If the request is to end the session, its box is freed.
pub(crate) fn serve<F: Name>(kept: Kept<F>, alloc: Global, ask: Ask) -> (Kept<F>, SessionAnswer)
    ensures { Hosts ask kept.is_open kept.session result.0.is_open result.0.session result.1 }
{
    let Some(session) = kept.into_apart(alloc) else {
        return (Kept::none(), SessionAnswer::Closed);
    };
    let ends = is_end(&ask);
    let mut session = session.into_box();
    let (after, answer) = Box::replace(&mut session, Session::ended()).serve(ask);
    if ends {
        return (Kept::none(), answer);
    }
    let _ended = Box::replace(&mut session, after);
    (Kept::of(Apart::of(session)), answer)
}

/// Makes a box: with a master over what was found, or with an ended session if nothing was found. If memory runs out, there is
/// no box, and what was found is returned as the opening that found it.
pub(crate) fn make<F: Name>(
    alloc: Global,
    found: Option<FoundJournal<UnknownFlash>>,
) -> (Kept<F>, Option<Opening<UnknownFlash>>)
    requires name { IfSome found (λ found. found.front ≡ F.front) }
    ensures made { IsMade found result.0.is_open result.0.session result.1 }
{
    match (Box::new(alloc, Session::<F>::ended()), found) {
        (Ok(session), Some(found)) => begin(alloc, session, found),
        (Ok(session), None) => (Kept::of(Apart::of(session)), None),
        (Err(_), Some(found)) => (Kept::none(), Some(found.into_opening(alloc))),
        (Err(_), None) => (Kept::none(), None),
    }
}

// Begins a master in this box, over what was found.
fn begin<F: Name>(
    alloc: Global,
    session: Box<Session<F>>,
    found: FoundJournal<UnknownFlash>,
) -> (Kept<F>, Option<Opening<UnknownFlash>>)
    requires name { found.front ≡ F.front }
    ensures begun { IsBegunIn found result.0.is_open result.0.session result.1 }
{
    match HandedMaster::begin(alloc, found) {
        Ok(master) => {
            let mut session = session;
            let _ended = Box::replace(&mut session, Session::running(master));
            (Kept::of(Apart::of(session)), None)
        }
        Err(opening) => (Kept::none(), Some(opening)),
    }
}
