// The links that a pool holds.
ghost use Rattle.std.specs.Prelude.{ℕ, ◌↔◌, IsTrue, MatchOption};
ghost use Rattle.tpf_base.specs.Links.{SameAllowed};
ghost use Rattle.exchange.specs.Exchanges.{IsLinked};
ghost use Rattle.request_pool.specs.Polls.{Shuts, IsFor, TakesLink, NoneIsFor, IsForAt, waiting_for};

use crate::asks::Spare;
use template_fill::WebAddress;
use tpf_base::Wire;

/// Closes the link, where there is one.
pub(crate) fn shut<W: Wire>(wire: &mut W, link: Option<u64>)
    requires { IsLinked link (W.state wire.old) }
    ensures shuts { Shuts link (W.state wire.old) (W.state wire.new) }
    ensures allowed { SameAllowed (W.allows wire.old) (W.allows wire.new) }
{
    if let Some(link) = link {
        wire.close(link);
    }
}

/// Whether a link was left for the authority of an address.
fn is_for(left: &Spare, address: &WebAddress) -> bool
    ensures { IsTrue result ↔ IsFor address.now left.now }
{
    left.authority.as_slice() == address.authority().as_bytes()
}

/// The place of the first link that was left for the authority of an address.
fn place_of(spare: &[Spare], address: &WebAddress) -> Option<usize>
    ensures { MatchOption result (NoneIsFor address.now spare.now) (λ i. IsForAt address.now spare.now i) }
{
    for (place, left) in spare.iter().enumerate() {
        if is_for(left, address) {
            return Some(place);
        }
    }
    None
}

/// Takes the first link that was left for the authority of an address out of the list. An ask that
/// failed before takes none.
pub(crate) fn take_link(spare: &mut Vec<Spare>, address: &WebAddress, failed: u32) -> Option<u64>
    ensures { (ticket : ℕ) → TakesLink (waiting_for ticket address.now failed) spare.old.items spare.new.items result }
{
    if failed > 0 {
        return None;
    }
    match place_of(spare.as_slice(), address) {
        Some(place) => Some(spare.remove(place).link),
        None => None,
    }
}
