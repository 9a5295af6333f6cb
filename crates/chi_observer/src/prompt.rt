//! Laws that tie logs taken at the home to those of what is sent.

ghost use Rattle.chi_observer.specs.Alike.{PromptIsJudgedAlike};
ghost use Rattle.chi_observer.specs.Crossing.{EarlyRequestsAreHeld, LateRequestsAreTaken, RequestsBehindAreHeld};

/// The law that a flit which nothing late bears on is taken exactly where the observer of what is told takes it, and is a
/// fault where it doesn't: a flit of the home where no CompAck of the line is on its way and no request is held; a request
/// where neither an answer nor write data of its agent are awaited, and none may have been sent before its last answers;
/// and of such an agent an answer, write data, or a request that is sent again.
/// Source: `docs/OBSERVER.md`, "Seen at the home".
pub fn prompt_flits()
    ensures { PromptIsJudgedAlike }
{}

/// The law that no rule refuses a request and an answer to a snoop that come in another order than their cache sent them: the
/// answer is taken first, and then the request as one that was sent before it or one that fits now, and the copy is as it is
/// told then; or the request is held until the answer is here.
/// Source: `docs/OBSERVER.md`, "Seen at the home".
pub fn crossing_flits()
    ensures late { LateRequestsAreTaken }
    ensures early { EarlyRequestsAreHeld }
    ensures behind { RequestsBehindAreHeld }
{}
