// A wire in memory whose links do what scripts say.
ghost use Rattle.std.specs.Prelude.{ℕ, ◌≡◌, ◌≢◌, ◌+◌, ◌<◌, ◌≤◌, ◌==◌, ◌||◌, nat_le, [], ◌∷◌, ◌++◌, length, min, set, get_or, slice_get, Option, Some, None, Ok, Err, true, false, IfOk, OnOk, OnErr, IfSome, IfNone, IsErrOf, is_err, ◌↔◌};
ghost use Rattle.tpf_base.specs.Causes.{HasCause, counted};
ghost use Rattle.tpf_base.specs.Failures.{no_calls};
ghost use Rattle.tpf_base.specs.Links.{listens, closed_door};
ghost use Rattle.tpf_base.specs.Calls.{Sends, Receives, Closes, GivesDialled, GivesAccepted, GivesNone, OnlyDials, OnlyListens, Opens, LeavesDoor, OnlyAccepts, OnlyWaits, Wakes};
ghost use Rattle.script_wire.specs.Scripts.{no_link, new_link, closed, settled, after_send, answer_of, room_at, spoken_on, may_move, IsFirst, ReceivesBy, WaitsBy, after_wait};
ghost use Rattle.script_wire.specs.Peers.{peer_of};

use crate::Script;
use crate::door::ScriptDoor;
use crate::link::{Peer, ScriptLink, Side};
use std::alloc::Global;
use tpf_base::{Accept, Dial, Failing, Failures, Fault, Moved, OutOfMemory, Ready, Text, Wire};

/// A wire in memory. The n-th link that is dialled or accepted does what the n-th script says.
///
/// It tells the bytes that were sent and received on each link, and not those that the other end
/// owes. The calls of `send`, `recv`, `dial`, `listen`, `accept` and `wait` count, also one that
/// ends in out of memory, and fail where its `Failing` says so; a dial counts among the dials too.
/// The bytes that moved are those sent and received on all links. Counts stop at 2^64 - 1.
#[derive(Drop)]
pub struct ScriptWire {
    scripts: Vec<Script>,
    links: Vec<ScriptLink>,
    failures: Failures,
    moved: u64,
    waits: u64,
    idle: u64,
    door: ScriptDoor,
    ghost scripted: { length links.items ≤ length scripts.items },
}

/// How many of the links have had a byte sent.
fn count_spoken(links: &[ScriptLink]) -> u64
    ensures { result ≡ spoken_on links.now }
{
    let mut spoken = 0;
    for link in links {
        if link.has_spoken() {
            spoken += 1;
        }
    }
    spoken
}

/// The first link on which something may come.
#[tactic(auto, using(list_laws::proofs::Lists::at_place))]
fn first_to_move(scripts: &[Script], links: &[ScriptLink], spoken: u64) -> Option<usize>
    requires all { length links.now ≤ length scripts.now }
    requires spoken { spoken ≡ spoken_on links.now }
    ensures within { IfSome result (λ k. k < length links.now) }
    ensures found { IfSome result (IsFirst (may_move scripts.now links.now)) }
    ensures none { IfNone result ((k : ℕ) → k < length links.now → may_move scripts.now links.now k ≡ false) }
{
    for k in 0..links.len() {
        if links[k].can_move(&scripts[k], spoken) {
            return Some(k);
        }
    }
    None
}

impl ScriptWire {
    ghost use Rattle.script_wire.specs.Held.{scripts_of, links_of, counts_of, moved_of, state_of, wire_of};

    /// A wire that has given no link yet. It takes no memory.
    pub fn new(alloc: Global, scripts: Vec<Script>, failing: Failing) -> ScriptWire
        ensures scripts { scripts_of result ≡ scripts.items }
        ensures links { links_of result ≡ [] }
        ensures counts { counts_of result ≡ no_calls failing }
        ensures moved { moved_of result ≡ 0 }
        ensures state { state_of result ≡ wire_of [] (no_calls failing) 0 0 closed_door }
    {
        ScriptWire {
            scripts,
            links: Vec::new(alloc),
            failures: Failures::new(failing),
            moved: 0,
            waits: 0,
            idle: 0,
            door: ScriptDoor::new(),
        }
    }

    /// How many links were given.
    pub fn links(&self) -> usize
        ensures { result ≡ length (links_of self.now) }
    {
        self.links.len()
    }

    /// The bytes sent on the link with this number.
    pub fn sent_on(&self, i: usize) -> &[u8]
        requires { i < length (links_of self.now) }
        ensures { result.now ≡ (get_or (links_of self.now) i no_link).sent }
    {
        self.links[i].sent()
    }

    /// Gives the next link, where a script is left.
    fn give(&mut self, peer: Option<Peer>) -> Result<Option<u64>, OutOfMemory>
        ensures number { IfOk result (λ link. IfSome link (λ number. (number ≡ length (links_of self.old))
            × (number < length (scripts_of self.old)))) }
        ensures given { IfOk result (λ link. IfSome link (λ number. (links_of self.new
            ≡ links_of self.old ++ new_link (peer_of peer) ∷ []) × ((state_of self.new).idle ≡ 0))) }
        ensures none { IfOk result (λ link. IfNone link (length (scripts_of self.old) ≤ length (links_of self.old))) }
        ensures same { IfOk result (λ link. IfNone link ((links_of self.new ≡ links_of self.old)
            × ((state_of self.new).idle ≡ (state_of self.old).idle))) }
        ensures err { OnErr result ((links_of self.new ≡ links_of self.old) × ((state_of self.new).idle
            ≡ (state_of self.old).idle)) }
        ensures scripts { scripts_of self.new ≡ scripts_of self.old }
        ensures counts { counts_of self.new ≡ counts_of self.old }
        ensures moved { moved_of self.new ≡ moved_of self.old }
        ensures waits { (state_of self.new).waits ≡ (state_of self.old).waits }
        ensures door { (state_of self.new).door ≡ (state_of self.old).door }
    {
        let number = self.links.len();
        if number >= self.scripts.len() {
            return Ok(None);
        }
        let link = ScriptLink::new(*self.links.allocator(), peer);
        if self.links.push(link).is_err() {
            return Err(OutOfMemory);
        }
        self.idle = 0;
        Ok(Some(number as u64))
    }

    /// Counts a fault of the door, which is one of the wire.
    fn fail_at_door(&mut self) -> Fault
        ensures answer { result ≡ Fault.Failed }
        ensures state { state_of self.new ≡ record (state_of self.old) {
          faults = counted (state_of self.old).faults;
          door = record (state_of self.old).door { faults = counted (state_of self.old).door.faults };
        } }
        ensures later { (state_of self.old).door.faults ≤ (state_of self.new).door.faults }
        ensures links { links_of self.new ≡ links_of self.old }
        ensures counts { counts_of self.new
            ≡ record (counts_of self.old) { faults = counted (counts_of self.old).faults } }
        ensures fault { (counts_of self.old).faults ≤ (counts_of self.new).faults }
        ensures moved { moved_of self.new ≡ moved_of self.old }
        ensures scripts { scripts_of self.new ≡ scripts_of self.old }
    {
        self.failures.fail();
        self.door.fail();
        Fault::Failed
    }
}

impl Wire for ScriptWire {
    ghost use Rattle.script_wire.specs.Held.{scripts_of, links_of, counts_of, moved_of, state_of, is_due_on, room_on, called, failed_by, moved_by};
    ghost use Rattle.script_wire.specs.Laws.{all_told, none_open, none_owed, nothing_allowed, not_lively};

    ghost state = { state_of };

    ghost allows = { λ wire host port sent owed. ⊥ };

    ghost told = { all_told };

    ghost given_alone = { none_open };

    ghost received_is_owed = { none_owed };

    ghost owed_is_allowed = { nothing_allowed };

    ghost is_lively = { not_lively };

    /// `Failed` exactly where the call is due, and then nothing was sent. `NotYet` exactly where the
    /// script takes no byte.
    #[tactic(auto, using(crate::proofs::Places::script_at))]
    fn send(&mut self, link: u64, piece: &[u8]) -> Moved
        requires is_open { ((state_of self.old).links link).is_open ≡ true }
        requires some { 0 < length piece.now }
        ensures due { is_due_on self.old ≡ true → result ≡ Moved.Failed }
        ensures answer { is_due_on self.old ≡ false → result ≢ Moved.OutOfMemory
            → (script : Script) → slice_get (scripts_of self.old) link ≡ Some script
            → result ≡ answer_of (room_on self.old (min script.most (length piece.now))) }
        ensures links { links_of self.new
            ≡ set (links_of self.old) link (after_send result piece.now (get_or (links_of self.old) link no_link)) }
        ensures counts { counts_of self.new ≡ called (is_due_on self.old) (counts_of self.old) }
        ensures moved { moved_of self.new ≡ moved_by result (moved_of self.old) }
        ensures scripts { scripts_of self.new ≡ scripts_of self.old }
        ensures sends { Sends link piece.now (state_of self.old) (state_of self.new) result }
    {
        let k = link as usize;
        if self.failures.is_next_due(self.moved) {
            self.failures.fail();
            self.links[k].settle();
            return Moved::Failed;
        }
        let most = self.scripts[k].most.min(piece.len());
        let n = self.failures.room(self.moved, most);
        if n == 0 {
            self.links[k].stall(Side::Sending);
            return Moved::NotYet;
        }
        if self.links[k].send(&piece[..n]).is_err() {
            return Moved::OutOfMemory;
        }
        self.moved = self.moved.saturating_add(n as u64);
        self.idle = 0;
        Moved::Moved(n)
    }

    /// `Failed` exactly where the call is due; else it does what the script says.
    #[tactic(auto, using(crate::proofs::Places::script_at))]
    fn recv(&mut self, link: u64, to: &mut [u8]) -> Moved
        requires is_open { ((state_of self.old).links link).is_open ≡ true }
        requires room { 0 < length to.old }
        ensures due { is_due_on self.old ≡ true → (result ≡ Moved.Failed) × (links_of self.new
            ≡ set (links_of self.old) link (settled (get_or (links_of self.old) link no_link))) }
        ensures answer { is_due_on self.old ≡ false → result ≢ Moved.OutOfMemory
            → (script : Script) → slice_get (scripts_of self.old) link ≡ Some script
            → ReceivesBy script (spoken_on (links_of self.old))
            (room_at (counts_of self.old).failing (moved_of self.old) script (length to.old)
            (get_or (links_of self.old) link no_link).place)
            link (links_of self.old) (links_of self.new) to.new result }
        ensures memory { result ≡ Moved.OutOfMemory → links_of self.new ≡ links_of self.old }
        ensures counts { counts_of self.new ≡ called (is_due_on self.old) (counts_of self.old) }
        ensures moved { moved_of self.new ≡ moved_by result (moved_of self.old) }
        ensures scripts { scripts_of self.new ≡ scripts_of self.old }
        ensures receives { Receives link to.new (state_of self.old) (state_of self.new) result }
    {
        let k = link as usize;
        if self.failures.is_next_due(self.moved) {
            self.failures.fail();
            self.links[k].settle();
            return Moved::Failed;
        }
        let spoken = count_spoken(&self.links);
        let answer = self.links[k].receive(
            &self.scripts[k],
            spoken,
            &self.failures,
            self.moved,
            to,
        );
        match answer {
            Moved::Moved(n) => {
                self.moved = self.moved.saturating_add(n as u64);
                self.idle = 0;
                Moved::Moved(n)
            }
            Moved::End => {
                self.idle = 0;
                Moved::End
            }
            Moved::NotYet => Moved::NotYet,
            Moved::Failed => Moved::Failed,
            Moved::OutOfMemory => Moved::OutOfMemory,
        }
    }

    fn close(&mut self, link: u64)
        requires is_open { ((state_of self.old).links link).is_open ≡ true }
        ensures links { links_of self.new
            ≡ set (links_of self.old) link (closed (get_or (links_of self.old) link no_link)) }
        ensures counts { counts_of self.new ≡ counts_of self.old }
        ensures moved { moved_of self.new ≡ moved_of self.old }
        ensures scripts { scripts_of self.new ≡ scripts_of self.old }
        ensures closes { Closes link (state_of self.old) (state_of self.new) }
    {
        self.links[link as usize].close();
    }

    /// The first open link on which a piece or the end may come; where there is none, the door (the
    /// listener), if it is open and a script is left. `Failed` exactly where the call is due, or neither
    /// is there.
    fn wait(&mut self) -> Result<Ready, Fault>
        ensures due { is_due_on self.old ≡ true → IsErrOf result Fault.Failed }
        ensures answer { is_due_on self.old ≡ false
            → WaitsBy (scripts_of self.old) (links_of self.old) (listens (state_of self.old)) result }
        ensures links { links_of self.new ≡ after_wait result (links_of self.old) }
        ensures counts { counts_of self.new ≡ called (is_err result) (counts_of self.old) }
        ensures ok { IfOk result (λ answer. Wakes answer (state_of self.old) (state_of self.new)) }
        ensures err { OnErr result (GivesNone (state_of self.old) (state_of self.new)) }
        ensures only { OnlyWaits (state_of self.old) (state_of self.new) }
        ensures cause { HasCause (counts_of self.old).faults (counts_of self.new).faults result }
        ensures door { HasCause (state_of self.old).door.faults (state_of self.new).door.faults result }
        ensures door_faults { (state_of self.new).door.faults
            ≡ failed_by (is_err result) (state_of self.old).door.faults }
        ensures moved { moved_of self.new ≡ moved_of self.old }
        ensures scripts { scripts_of self.new ≡ scripts_of self.old }
    {
        self.waits = self.waits.saturating_add(1);
        if self.failures.is_next_due(self.moved) {
            return Err(self.fail_at_door());
        }
        let spoken = count_spoken(&self.links);
        if let Some(k) = first_to_move(&self.scripts, &self.links, spoken) {
            self.links[k].wake();
            self.idle = self.idle.saturating_add(1);
            return Ok(Ready::Link(k as u64));
        }
        if self.door.is_open() && self.links.len() < self.scripts.len() {
            self.idle = self.idle.saturating_add(1);
            return Ok(Ready::Door);
        }
        Err(self.fail_at_door())
    }

    fn look(&mut self)
        ensures { self.new ≡ self.old }
    {}

    fn idle(&self) -> u64 {
        self.idle
    }
}

impl Dial for ScriptWire {
    ghost use Rattle.script_wire.specs.Held.{scripts_of, links_of, counts_of, moved_of, state_of, is_dial_due_on, dialled};

    /// `Failed` exactly where the call is due, or no script is left; after an error no link was given.
    fn dial(&mut self, host: &str, port: u16) -> Result<u64, Fault>
        ensures due { is_dial_due_on self.old ≡ true → IsErrOf result Fault.Failed }
        ensures unscripted { length (scripts_of self.old) ≤ length (links_of self.old) → IsErrOf result Fault.Failed }
        ensures failed { IsErrOf result Fault.Failed → is_dial_due_on self.old ≡ false
            → length (scripts_of self.old) ≤ length (links_of self.old) }
        ensures counts { counts_of self.new ≡ dialled
            (is_dial_due_on self.old || nat_le (length (scripts_of self.old)) (length (links_of self.old)))
            (counts_of self.old) }
        ensures links { OnOk result (links_of self.new ≡ links_of self.old ++ new_link (Some (host.now, port)) ∷ []) }
        ensures ok { IfOk result (λ number. GivesDialled host.now port number (state_of self.old) (state_of self.new)) }
        ensures err { OnErr result (GivesNone (state_of self.old) (state_of self.new)) }
        ensures same { OnErr result (links_of self.new ≡ links_of self.old) }
        ensures only { OnlyDials (state_of self.old) (state_of self.new) }
        ensures cause { HasCause (counts_of self.old).faults (counts_of self.new).faults result }
        ensures moved { moved_of self.new ≡ moved_of self.old }
        ensures scripts { scripts_of self.new ≡ scripts_of self.old }
    {
        if self.failures.is_next_dial_due(self.moved) || self.links.len() >= self.scripts.len() {
            self.failures.fail();
            return Err(Fault::Failed);
        }
        let Ok(host) = Text::copy(*self.links.allocator(), host) else {
            return Err(Fault::OutOfMemory);
        };
        match self.give(Some(Peer { host, port })) {
            Ok(Some(number)) => Ok(number),
            Ok(None) | Err(OutOfMemory) => Err(Fault::OutOfMemory),
        }
    }
}

impl Accept for ScriptWire {
    ghost use Rattle.script_wire.specs.Held.{scripts_of, links_of, counts_of, moved_of, state_of, is_due_on, called, failed_by};

    /// `Failed` exactly where the call is due. After an error the door is as before.
    fn listen(&mut self, host: &str, port: u16) -> Result<(), Fault>
        ensures failed { IsErrOf result Fault.Failed ↔ (is_due_on self.old ≡ true) }
        ensures counts { counts_of self.new ≡ called (is_due_on self.old) (counts_of self.old) }
        ensures ok { OnOk result (Opens host.now port (state_of self.old) (state_of self.new)) }
        ensures again { listens (state_of self.old) ≡ true → (state_of self.new).door.stalls
            ≡ (state_of self.old).door.stalls }
        ensures err { OnErr result (LeavesDoor (state_of self.old) (state_of self.new)) }
        ensures only { OnlyListens (state_of self.old) (state_of self.new) }
        ensures cause { HasCause (counts_of self.old).faults (counts_of self.new).faults result }
        ensures door { HasCause (state_of self.old).door.faults (state_of self.new).door.faults result }
        ensures door_faults { (state_of self.new).door.faults
            ≡ failed_by (is_due_on self.old) (state_of self.old).door.faults }
        ensures links { links_of self.new ≡ links_of self.old }
        ensures moved { moved_of self.new ≡ moved_of self.old }
        ensures scripts { scripts_of self.new ≡ scripts_of self.old }
    {
        self.door.count_call();
        if self.failures.is_next_due(self.moved) {
            return Err(self.fail_at_door());
        }
        let Ok(host) = Text::copy(*self.links.allocator(), host) else {
            return Err(Fault::OutOfMemory);
        };
        self.door.open(Peer { host, port });
        Ok(())
    }

    /// The next link at once, and `None` where no script is left. `Failed` exactly where the call is due;
    /// after an error no link was given.
    fn accept(&mut self) -> Result<Option<u64>, Fault>
        requires { listens (state_of self.old) ≡ true }
        ensures failed { IsErrOf result Fault.Failed ↔ (is_due_on self.old ≡ true) }
        ensures counts { counts_of self.new ≡ called (is_due_on self.old) (counts_of self.old) }
        ensures links { IfOk result (λ link. IfSome link (λ number. (number < length (scripts_of self.old))
            × (links_of self.new ≡ links_of self.old ++ new_link None ∷ []))) }
        ensures nobody { IfOk result (λ link. IfNone link ((length (scripts_of self.old) ≤ length (links_of self.old))
            × (links_of self.new ≡ links_of self.old))) }
        ensures given { IfOk result (λ link. IfSome link (λ number.
            GivesAccepted number (state_of self.old) (state_of self.new))) }
        ensures none { IfOk result (λ link. IfNone link (GivesNone (state_of self.old) (state_of self.new))) }
        ensures stalled { IfOk result (λ link. IfNone link ((state_of self.new).door.stalls
            ≡ counted (state_of self.old).door.stalls)) }
        ensures unstalled { IfOk result (λ link. IfSome link (λ number. (state_of self.new).door.stalls
            ≡ (state_of self.old).door.stalls)) }
        ensures leaves { OnErr result (LeavesDoor (state_of self.old) (state_of self.new)) }
        ensures err { OnErr result (GivesNone (state_of self.old) (state_of self.new)) }
        ensures only { OnlyAccepts (state_of self.old) (state_of self.new) }
        ensures cause { HasCause (counts_of self.old).faults (counts_of self.new).faults result }
        ensures door { HasCause (state_of self.old).door.faults (state_of self.new).door.faults result }
        ensures door_faults { (state_of self.new).door.faults
            ≡ failed_by (is_due_on self.old) (state_of self.old).door.faults }
        ensures moved { moved_of self.new ≡ moved_of self.old }
        ensures scripts { scripts_of self.new ≡ scripts_of self.old }
    {
        if self.failures.is_next_due(self.moved) {
            return Err(self.fail_at_door());
        }
        match self.give(None) {
            Ok(Some(number)) => Ok(Some(number)),
            Ok(None) => {
                self.door.stall();
                Ok(None)
            }
            Err(OutOfMemory) => Err(Fault::OutOfMemory),
        }
    }
}
