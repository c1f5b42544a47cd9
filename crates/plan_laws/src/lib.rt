//! What joins a plan with a server: a server of fragments is a world over which a join goes, and
//! under the limits of the program a plan fits: each of its addresses is answered with a page that
//! is read.
//!
//! A law is called where its statement is wanted, and does nothing when it runs. So a query over a
//! server in the same process ends as planned:
//!
//! ```rust
//! plan_laws::plans_are_read();
//! laws::is_few(&server);
//! server.server().is_valid();
//! let failing = Failing::Dials(asked.fail_every);
//! let mut wire: LoopWire<FragmentConnection> = LoopWire::new(alloc, server, asked.seed, failing);
//! ```
#![tactic(auto)]

ghost use Rattle.plan_laws.specs.Fitting.{PlansAreRead, BasesAreRead, StartsAreRead};
ghost use Rattle.plan_laws.specs.JointFitting.{JointPlansAreRead};
ghost use Rattle.plan_laws.specs.JointWorlds.{WorldsAreJoined};
ghost use Rattle.plan_laws.specs.Servers.{ServersAreWorlds, ServersHaveForms, ServersPagesAreTrue};

use control_laws::controls_read_back;
use rdf_terms::{askable_slots_are_kept, triple_order_tells_apart};
use template_fill::{
    an_address_is_one, explicit_forms_are_short, first_page_is_expansion, pages_are_answered,
    pages_share_authority, versions_are_valid,
};

/// Over data whose terms have canonical texts of at most `LONGEST_TERM` bytes (262144), and for
/// patterns whose fixed terms have texts of at most `MOST_UNWRITTEN` bytes (60) more, a server
/// answers each address of a plan with the status 200, and the body is read as a page of that
/// address (`plan`): the addresses that stand in its metadata are short enough. It holds row by row
/// and in blocks of at most `MOST_ROWS` rows (64), whether the server reads the rows of an address
/// or passes them over. So it does for its own base (`base`), and for each other address of its
/// authority that it answers so at all (`start`). There are at most `HIGHEST_NUMBER` triples (of
/// `MOST_DIGITS` digits, 19), and the base and the start have at most `LONGEST_START` bytes (65536).
pub fn plans_are_read()
    ensures plan { PlansAreRead }
    ensures base { BasesAreRead }
    ensures start { StartsAreRead }
{
    controls_read_back();
    askable_slots_are_kept();
    explicit_forms_are_short();
    pages_are_answered();
    pages_share_authority();
    versions_are_valid();
}

/// Over several servers within the same limits, each address of the plan of all of them together
/// has the authority of the base of one of them, which answers it with the status 200 and a body
/// that is read as a page of that address.
pub fn joint_plans_are_read()
    ensures { JointPlansAreRead }
{
    controls_read_back();
    askable_slots_are_kept();
    explicit_forms_are_short();
    pages_are_answered();
    pages_share_authority();
    versions_are_valid();
}

/// A server of fragments is a world: the data of a version of its history, what it gives of them in
/// pages of its size, and the addresses of these. One that reads the rows of an address gives of a
/// fragment what matches one of them; one that passes them over gives the fragment, and its further
/// pages stand where those of the fragment do. The form that its pages tell gives the addresses of
/// the first pages, and a page that is read from the body which the server's definition gives under
/// an address is true for it.
pub fn a_server_is_a_world()
    ensures world { ServersAreWorlds }
    ensures form { ServersHaveForms }
    ensures pages { ServersPagesAreTrue }
{
    controls_read_back();
    askable_slots_are_kept();
    triple_order_tells_apart();
    an_address_is_one();
    first_page_is_expansion();
    pages_share_authority();
    versions_are_valid();
}

/// Several servers are a world together: the union of their triples, in which a triple that several
/// of them have stands once, asked for in rounds of which each has a page of every server that has
/// one of its number. So a join in rounds over them gives the solutions over the union.
pub fn worlds_together_are_a_world()
    ensures { WorldsAreJoined }
{}
