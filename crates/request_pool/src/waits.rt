// A pool waits for its wire.
ghost use Rattle.std.specs.Prelude.{◌≡◌, ◌≢◌, [], IfOk};
ghost use Rattle.tpf_base.specs.Links.{SameAllowed};
ghost use Rattle.request_pool.specs.Owned.{SuitsWire};
ghost use Rattle.request_pool.specs.Steps.{GivesUp, WaitsTo};

use crate::fault::{PoolFault, Stepped};
use crate::links::shut;
use crate::pool::Pool;
use tpf_base::{Dial, Fault, MOST_IDLE};

impl Pool {
    /// Waits for the wire. A wait that fails, and one behind which `MOST_IDLE` (1000) followed one
    /// another with nothing moved, is a failure of the oldest exchange.
    pub(crate) fn wait<W: Dial>(&mut self, wire: &mut W) -> Result<Stepped, PoolFault>
        requires suits { SuitsWire self.old (W.state wire.old) }
        requires none_due { self.old.due ≡ [] }
        requires some { self.old.polled ≢ [] }
        ensures waits { WaitsTo result self.old self.new (W.state wire.old) (W.state wire.new) }
        ensures suits { SuitsWire self.new (W.state wire.new) }
        ensures waited { IfOk result (λ stepped. stepped ≡ Stepped.Waited) }
        ensures allowed { SameAllowed (W.allows wire.old) (W.allows wire.new) }
    {
        match wire.wait() {
            Ok(_) => {
                if wire.idle() < MOST_IDLE {
                    return Ok(Stepped::Waited);
                }
                self.give_up(wire, PoolFault::Stalled)
            }
            Err(Fault::Failed) => self.give_up(wire, PoolFault::Exchange),
            Err(Fault::OutOfMemory) => Err(PoolFault::OutOfMemory),
        }
    }

    /// Gives up the oldest exchange: closes its link, and counts a failure of its ask.
    fn give_up<W: Dial>(&mut self, wire: &mut W, fault: PoolFault) -> Result<Stepped, PoolFault>
        requires suits { SuitsWire self.old (W.state wire.old) }
        requires none_due { self.old.due ≡ [] }
        requires some { self.old.polled ≢ [] }
        ensures gives_up { GivesUp fault result self.old self.new (W.state wire.old) (W.state wire.new) }
        ensures waited { IfOk result (λ stepped. stepped ≡ Stepped.Waited) }
        ensures allowed { SameAllowed (W.allows wire.old) (W.allows wire.new) }
    {
        match self.polled.pop_front() {
            None => unreachable!(),
            Some(flight) => {
                shut(wire, flight.exchange.link());
                match self.fail(flight, fault) {
                    Ok(polled) => {
                        drop(polled);
                        Ok(Stepped::Waited)
                    }
                    Err(fault) => Err(fault),
                }
            }
        }
    }
}
