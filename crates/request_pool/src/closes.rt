// The links of a pool are closed.
ghost use Rattle.std.specs.Prelude.{◌≡◌, [], None, IfSome};
ghost use Rattle.tpf_base.specs.Links.{SameAllowed};
ghost use Rattle.request_pool.specs.Owned.{SuitsWire, held_on};
ghost use Rattle.request_pool.specs.Closing.{ClosesSome, PopsLink, HoldsNoLink};

use crate::links::shut;
use crate::pool::Pool;
use tpf_base::Dial;

impl Pool {
    /// Closes all links that it holds. Nothing is held afterwards; a fault and the count of exchanges
    /// stay.
    pub fn close<W: Dial>(&mut self, wire: &mut W)
        requires suits { SuitsWire self.old (W.state wire.old) }
        ensures empty { self.new ≡ record self.old { waiting = []; polled = []; due = []; spare = [] } }
        ensures closes { ClosesSome (held_on self.old) (held_on self.new) (W.state wire.old) (W.state wire.new) }
        ensures allowed { SameAllowed (W.allows wire.old) (W.allows wire.new) }
    {
        while let Some(link) = self.pop_link() {
            shut(wire, link);
        }
        self.waiting.clear();
    }

    /// Takes out the last exchange in flight, or else the last link that was left, and gives its link.
    fn pop_link(&mut self) -> Option<Option<u64>>
        ensures some { IfSome result (λ link. PopsLink link self.old self.new) }
        ensures none { result ≡ None → (self.new ≡ self.old) × HoldsNoLink self.old }
    {
        if let Some(link) = self.pop_due() {
            return Some(link);
        }
        if let Some(link) = self.pop_polled() {
            return Some(link);
        }
        self.pop_spare()
    }

    fn pop_due(&mut self) -> Option<Option<u64>>
        ensures some { IfSome result (λ link. PopsLink link self.old self.new) }
        ensures none { result ≡ None → (self.new ≡ self.old) × (self.old.due ≡ []) }
    {
        let flight = self.due.pop_back()?;
        Some(flight.exchange.link())
    }

    fn pop_polled(&mut self) -> Option<Option<u64>>
        ensures some { IfSome result (λ link. PopsLink link self.old self.new) }
        ensures none { result ≡ None → (self.new ≡ self.old) × (self.old.polled ≡ []) }
    {
        let flight = self.polled.pop_back()?;
        Some(flight.exchange.link())
    }

    fn pop_spare(&mut self) -> Option<Option<u64>>
        ensures some { IfSome result (λ link. PopsLink link self.old self.new) }
        ensures none { result ≡ None → (self.new ≡ self.old) × (self.old.spare ≡ []) }
    {
        let left = self.spare.pop()?;
        Some(Some(left.link))
    }
}
