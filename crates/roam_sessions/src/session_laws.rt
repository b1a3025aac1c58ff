//! Laws of targets, ledgers and causes, for callers' proofs, and the numbers that RFCs give. They do
//! nothing when they run.

ghost use Rattle.roam_sessions.specs.CauseLaws.{ForwardedHasTarget, ForwardedIsOfOneSession, ForwardedNamesTheRealm};
ghost use Rattle.roam_sessions.specs.CauseLaws.{NamedRequestsNeedNoSession};
ghost use Rattle.roam_sessions.specs.Constants.{ErrorCauses, StatusTypes};
ghost use Rattle.roam_sessions.specs.SessionLaws.{ClosedIsGone, LimitOfNoneHoldsNone, MoreMakesWay, NoneThatAgreesIsLeft};
ghost use Rattle.roam_sessions.specs.SessionLaws.{OpenedIsThere, OpenedTwiceIsOpenedOnce, OtherPeersSessionsStay};
ghost use Rattle.roam_sessions.specs.SessionLaws.{OthersStayOpen, OthersThanTheseStay, RequestsKeepTheLedger};
ghost use Rattle.roam_sessions.specs.TargetLaws.{NamelessIsForNone, NamesAreTheTargets, OperatorNamesTheTarget};
ghost use Rattle.roam_sessions.specs.TargetLaws.{TargetTakesRequests};

/// States that the target takes Disconnect- and CoA-Requests and is named: by the Operator-Name, where that counts,
/// else by each name of an access server that is there.
pub fn target_is_named()
    ensures takes { TargetTakesRequests }
    ensures operator { OperatorNamesTheTarget }
    ensures nas { NamesAreTheTargets }
    ensures nameless { NamelessIsForNone }
{}

/// States that no request makes two sessions of a table the same, or more of them than its limit.
pub fn ledgers_stay_ledgers()
    ensures kept { RequestsKeepTheLedger }
    ensures limit_of_none { LimitOfNoneHoldsNone }
{}

/// States that a session that was opened is there, once.
pub fn opened_sessions()
    ensures is_there { OpenedIsThere }
    ensures once { OpenedTwiceIsOpenedOnce }
{}

/// States that a session that was closed is gone, and the others stay.
pub fn closed_sessions()
    ensures gone { ClosedIsGone }
    ensures others { OthersStayOpen }
{}

/// States that none of the sessions that agree is left once all of them are closed, and that the others stay, as those
/// of other peers.
pub fn sessions_of_a_peer()
    ensures gone { NoneThatAgreesIsLeft }
    ensures stay { OthersThanTheseStay }
    ensures others { OtherPeersSessionsStay }
{}

/// States that a session makes way for one of another peer only where its own peer has more.
pub fn peers_have_shares()
    ensures { MoreMakesWay }
{}

/// States that in a realm with `own_sessions` a request that can be forwarded is of one session of the realm's own.
pub fn forwarded_is_of_one_session()
    ensures { ForwardedIsOfOneSession }
{}

/// States that the session table isn't looked at where a request has a User-Name in a realm without `own_sessions`.
pub fn named_requests_need_no_session()
    ensures { NamedRequestsNeedNoSession }
{}

/// States that a request that can be forwarded has a target, and holds no salted string; with a User-Name it names
/// the realm.
pub fn forwarded_has_target()
    ensures target { ForwardedHasTarget }
    ensures realm { ForwardedNamesTheRealm }
{}

/// States the numbers of the status types and of the Error-Causes.
pub fn numbers_of_statuses_and_causes()
    ensures statuses { StatusTypes }
    ensures causes { ErrorCauses }
{}
