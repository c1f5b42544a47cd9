// The laws of the replies of a pool and an exchange, and of the links of a pool whose asks are for one host and port.
ghost use Rattle.std.specs.Prelude.{◌≡◌};
ghost use Rattle.tpf_base.specs.Links.{All};
ghost use Rattle.pool_laws.specs.Answers.{CutsAreFaults, RefusalsAreTooLong, RepliesAreAnswers, TellsAll};
ghost use Rattle.pool_laws.specs.Honest.{RefusedAsTooLongAlone};
ghost use Rattle.pool_laws.specs.Owning.{ClosingCloses, EmptyPoolsOwn, FaultsOwn, PutsOwn, StepsOwn};

use http_ends::{a_reading_stays, a_response_is_cut, an_answer_is_read};
use pool_laws::ends_are_true;
use template_fill::authorities_are_hosts_and_ports;
use tpf_base::Wire;

/// Each reply that comes with a step, after which the wire is this one, is the body of the answer
/// that an honest other end gives to the request for the address of its ticket (`replies`), where
/// the wire tells all (`tells`). A reply that is refused is then too long, where each version of the
/// data answers the address with status 200, and the body of that answer over one of the versions is
/// longer than the limit (`refused`); and a link is cut only with a rise of the wire's faults (`cut`).
pub fn a_reply_is_an_answer<W: Wire>(wire: &W)
    ensures replies { RepliesAreAnswers (W.allows wire.now) (W.state wire.now) }
    ensures refused { RefusalsAreTooLong (W.allows wire.now) (W.state wire.now) }
    ensures cut { CutsAreFaults (W.allows wire.now) (W.state wire.now) }
    ensures tells { (W.state wire.now).nature.tells ≡ All → TellsAll (W.allows wire.now) (W.state wire.now) }
{
    ends_are_true();
    authorities_are_hosts_and_ports();
}

/// Where the asks of a pool are for one host and port, each link that was given since the pool was
/// empty was dialled for them, and is held or closed, whatever the steps answer; the links before
/// are as they were. So after its close each link that was given since is closed (`close`).
pub fn links_are_closed()
    ensures empty { EmptyPoolsOwn }
    ensures put { PutsOwn }
    ensures fault { FaultsOwn }
    ensures step { StepsOwn }
    ensures close { ClosingCloses }
{}

/// Where the other end of a link (a TCP connection) answers as a server does, and each request before
/// on the link was answered by one whole reply, a poll of an exchange never refuses the reply to an
/// address that all versions of the data answer with status 200, unless its body is longer than the
/// limit.
pub fn an_honest_reply_is_refused_as_too_long_alone()
    ensures { RefusedAsTooLongAlone }
{
    a_response_is_cut();
    an_answer_is_read();
    a_reading_stays();
}
