//! What the steps of a pool come to, over any wire and over one whose other ends answer as a server does (an honest one).
//!
//! A law is called where its statement is wanted, and does nothing when it runs. These are among those on which what is
//! said of the links and requests of a query rests:
//!
//! ```rust
//! pub fn traffic_rests_on_laws<W: Dial>(wire: &W)
//!     ensures { TrafficLaws }
//! {
//!     links_are_for_asks();
//!     requests_are_counted();
//!     failures_are_rises(wire);
//! }
//! ```
#![tactic(auto)]

ghost use Rattle.pool_laws.specs.Ends.{EndsAreTrue};
ghost use Rattle.pool_laws.specs.Hosts.{ClosingAtHosts, EmptyPoolsOwnAtHosts, FaultsOwnAtHosts, PutsOwnAtHosts, StepsDialHeld, StepsOwnAtHosts};
ghost use Rattle.pool_laws.specs.Causes.{FaultsHaveCauses, RepliesAreRead};
ghost use Rattle.pool_laws.specs.Counting.{ClosingDials, EmptyPoolsDial, EmptyPoolsFewFailed, FaultsDial, PutsDial, PutsFewFailed, StepsCountTries, StepsDial, StepsFewFailed};
ghost use Rattle.pool_laws.specs.Rising.{EmptyPoolsRose, FaultsRose, PutsRose, StepsRose, StepsRoseBySome};
ghost use Rattle.pool_laws.specs.Requested.{AsksAreAnswered, ClosingAnswered, ClosingRequested, EmptyPoolsAnswered, EmptyPoolsRequested, FaultsRequested, PutsAnswered, PutsRequested, RequestsAreExact, RequestsAreFew, RequestsAreOne, RequestsAreRises, RequestsAreStarted, StepsAnswered, StepsRequested};
ghost use Rattle.pool_laws.specs.Failing.{EmptyPoolsFail, FaultsFail, PutsFail, StepsFail};
ghost use Rattle.pool_laws.specs.Spending.{BudgetsAnswered, ClosingAnsweredMost, EmptyPoolsSpend, FaultsSpend, PutsSpend, StepsSpend};
ghost use Rattle.pool_laws.specs.Provoking.{EmptyPoolsReady, NoneHang, NoneHangBySome, PutsReady, StepsSpare};
ghost use Rattle.pool_laws.specs.Sending.{ClosingSent, EmptyPoolsSent, FaultsSent, PutsSent, StepsSent};
ghost use Rattle.pool_laws.specs.Following.{ClosedPoolsFollow, EmptyPoolsFollow, FaultsFollow, FlightsFollow, OthersFollow, PollsFollow, PutsFollow, RunningFollows, RunsFollow, StartsFollow, StepsFollow, TurnsFollow};

use http_ends::{a_reading_stays, a_response_is_cut, an_answer_is_read, requests_are_cut};
use template_fill::authorities_are_hosts_and_ports;
use tpf_base::Wire;

/// What the two ends of HTTP send and read, on which what is said of other ends that answer as a server
/// does rests.
pub fn ends_are_true()
    ensures { EndsAreTrue }
{
    requests_are_cut();
    an_answer_is_read();
    a_reading_stays();
    a_response_is_cut();
}

/// On each link that a pool holds, whole requests for addresses stand, each with one whole reply,
/// before what an exchange moves there itself. So it is of a new pool, and so it stays with each
/// ask that is put, each step, whatever it answers, and each call on a link that it does not hold.
pub fn whole_replies_come_first()
    ensures empty { EmptyPoolsFollow }
    ensures put { PutsFollow }
    ensures close { ClosedPoolsFollow }
    ensures fault { FaultsFollow }
    ensures others { OthersFollow }
    ensures flight { FlightsFollow }
    ensures start { StartsFollow }
    ensures poll { PollsFollow }
    ensures turn { TurnsFollow }
    ensures running { RunningFollows }
    ensures run { RunsFollow }
    ensures step { StepsFollow }
{
    authorities_are_hosts_and_ports();
}

/// Each link that is given in a step was dialled for the host and the port of an ask that was held at
/// its entry (`held`). Where the asks of a pool are for the hosts and ports of some addresses, several
/// servers say, each link that was given since the pool was empty was dialled for one of these, and is
/// held or closed, whatever the steps answer; the links before are as they were. So after its close each
/// link that was given since is closed (`close`).
pub fn links_are_for_asks()
    ensures held { StepsDialHeld }
    ensures empty { EmptyPoolsOwnAtHosts }
    ensures put { PutsOwnAtHosts }
    ensures fault { FaultsOwnAtHosts }
    ensures step { StepsOwnAtHosts }
    ensures close { ClosingAtHosts }
{}

/// An exchange is started for each try of an ask, of which there are at most one more than it may be
/// tried again (`empty`, `put`, `step`, `tries`); and no link is dialled but for an exchange that is
/// started (`dials_empty`, `dials_put`, `dials_fault`, `dials_step`, `dials_close`).
pub fn exchanges_are_counted()
    ensures empty { EmptyPoolsFewFailed }
    ensures put { PutsFewFailed }
    ensures step { StepsFewFailed }
    ensures tries { StepsCountTries }
    ensures dials_empty { EmptyPoolsDial }
    ensures dials_put { PutsDial }
    ensures dials_fault { FaultsDial }
    ensures dials_step { StepsDial }
    ensures dials_close { ClosingDials }
{}

/// A reply that comes was read, whole, on a link on which the whole request for its ticket's address
/// was sent (`reply`). Each fault with which a step ends has a cause (`fault`): a rise of the wire's
/// faults; `MOST_IDLE` (1000) waits with nothing moved; the budget; or what was received in reply to a
/// request, as it is kept, which is refused or was cut.
pub fn a_step_has_a_cause()
    ensures reply { RepliesAreRead }
    ensures fault { FaultsHaveCauses }
{
    authorities_are_hosts_and_ports();
}

/// Over other ends that answer as a server does, each failure of an ask is a rise of the wire's
/// faults, where never `MOST_IDLE` (1000) waits follow one another (`step`). So, since the pool was
/// empty, no more exchanges are started than asks were put and faults rose; and a step after which the
/// wire is this one ends with `Exchange` or `Cut` only where the faults rose at least once more than an
/// ask may be tried again, and never with `Stalled`. It is so too where each ask has a server of its own
/// (`step_by_some`).
pub fn failures_are_rises<W: Wire>(wire: &W)
    ensures empty { EmptyPoolsRose }
    ensures put { PutsRose }
    ensures fault { FaultsRose }
    ensures step { StepsRose (W.allows wire.now) (W.state wire.now) }
    ensures step_by_some { StepsRoseBySome (W.allows wire.now) (W.state wire.now) }
{
    ends_are_true();
    authorities_are_hosts_and_ports();
}

/// On each link that was given since the pool was empty, whole requests for addresses that were asked
/// for stand, and behind them nothing or a prefix of the request for one: also on a link whose exchange
/// ended with a fault, was given up, or was still in flight when the links were closed (`close`).
pub fn whole_requests_are_sent()
    ensures empty { EmptyPoolsSent }
    ensures put { PutsSent }
    ensures fault { FaultsSent }
    ensures step { StepsSent }
    ensures close { ClosingSent }
{}

/// For any test of addresses, no more whole requests are sent, on the links that were given since the
/// pool was empty, than the asks that were put for such addresses may be tried (`few`), and in all no
/// more than exchanges were started (`started`): so, where failures are rises of the wire's faults, no
/// more than asks were put and faults rose (`rises`). What a link tells was requested in one way, so
/// these counts are of the links alone (`once`).
pub fn requests_are_counted()
    ensures empty { EmptyPoolsRequested }
    ensures put { PutsRequested }
    ensures fault { FaultsRequested }
    ensures step { StepsRequested }
    ensures close { ClosingRequested }
    ensures few { RequestsAreFew }
    ensures started { RequestsAreStarted }
    ensures rises { RequestsAreRises }
    ensures once { RequestsAreOne }
{
    requests_are_cut();
}

/// Each ask that is put since the pool was empty is held, or a whole request for its address was
/// answered by a whole reply, until a step has a fault: so where nothing is held, for any test of
/// addresses, at least as many requests for such addresses were answered as asks were put (`all`); and
/// where no more whole requests were sent in all than asks were put, just the asks were sent (`exact`).
pub fn asks_are_answered()
    ensures empty { EmptyPoolsAnswered }
    ensures put { PutsAnswered }
    ensures step { StepsAnswered }
    ensures close { ClosingAnswered }
    ensures all { AsksAreAnswered }
    ensures exact { RequestsAreExact }
{}

/// Whatever the other ends answer, each failure of an ask is a rise of the wire's faults or the end of
/// a link that was given since the pool was empty, where never `MOST_IDLE` (1000) waits follow one
/// another (`step`). So a step ends with `Exchange` or `Cut` only where the faults rose and links ended,
/// together, at least once more than an ask may be tried again, and never with `Stalled`.
pub fn failures_are_ends()
    ensures empty { EmptyPoolsFail }
    ensures put { PutsFail }
    ensures fault { FaultsFail }
    ensures step { StepsFail }
{}

/// Unless memory is wanting, no more exchanges are started, since the pool was empty, than links are
/// given, faults rise and replies come (`step`). Where a step ends for the budget each ask is held
/// still, or was answered (`budget`), and what was answered stays so when the links are closed
/// (`close`).
pub fn starts_are_spent()
    ensures empty { EmptyPoolsSpend }
    ensures put { PutsSpend }
    ensures fault { FaultsSpend }
    ensures step { StepsSpend }
    ensures budget { BudgetsAnswered }
    ensures close { ClosingAnsweredMost }
{}

/// Over a steady wire on which no link is open but those of a pool, below 2^63 links, a step provokes
/// no fault unless an exchange hangs, and has none where none is due (`step`). Over other ends that
/// answer as a server does no exchange hangs after a step after which the wire is this one (`hang`), nor
/// where each ask has a server of its own (`hang_by_some`).
pub fn steps_provoke_nothing<W: Wire>(wire: &W)
    ensures empty { EmptyPoolsReady }
    ensures put { PutsReady }
    ensures step { StepsSpare }
    ensures hang { NoneHang (W.allows wire.now) (W.state wire.now) }
    ensures hang_by_some { NoneHangBySome (W.allows wire.now) (W.state wire.now) }
{
    ends_are_true();
    authorities_are_hosts_and_ports();
}
