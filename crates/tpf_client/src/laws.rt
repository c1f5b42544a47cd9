// What calls rest on, told to a proof by calls that do nothing.
ghost use Rattle.std.specs.Prelude.{◌≤◌, ◌<◌, ◌^◌};
ghost use Rattle.rdf_terms.specs.declared.limits.TheConstants.{MOST_ROWS};
ghost use Rattle.tpf_client.specs.Traffic.{IsLawful};
ghost use Rattle.tpf_client.specs.Honest.{Laws};
ghost use Rattle.tpf_client.specs.Requests.{TrafficLaws};

use control_laws::controls_read_back;
use control_reader::a_body_is_one_page;
use http_ends::{a_reading_stays, a_response_is_cut, an_answer_is_read, requests_are_cut};
use plan_laws::a_server_is_a_world;
use pool_laws::{
    a_step_has_a_cause, asks_are_answered, exchanges_are_counted, failures_are_ends,
    failures_are_rises, links_are_for_asks, requests_are_counted, starts_are_spent,
    steps_provoke_nothing, whole_replies_come_first, whole_requests_are_sent,
};
use rdf_terms::laws::askable_slots_are_kept;
use request_plan::BlockSize;
use result_json::laws::{pieces_make_the_text, rows_go_on};
use template_fill::laws::{
    authorities_are_hosts_and_ports, pages_are_answered, pages_share_authority,
};
use tpf_base::{Dial, Wire};

/// What every wire keeps to. It does nothing.
pub fn is_lawful<W: Wire>(wire: &W)
    ensures { IsLawful (W.allows wire.now) (W.state wire.now) }
{}

/// The laws on which the solutions rest. It does nothing.
pub fn solutions_rest_on_laws()
    ensures { Laws }
{
    whole_replies_come_first();
    pages_are_answered();
    controls_read_back();
    a_body_is_one_page();
    a_server_is_a_world();
    askable_slots_are_kept();
    pages_share_authority();
    pieces_make_the_text();
    rows_go_on();
    requests_are_cut();
    an_answer_is_read();
    a_reading_stays();
    a_response_is_cut();
    authorities_are_hosts_and_ports();
}

/// The laws on which what is said of links and requests rests. It does nothing.
pub fn traffic_rests_on_laws<W: Dial>(wire: &W)
    ensures { TrafficLaws }
{
    links_are_for_asks();
    exchanges_are_counted();
    a_step_has_a_cause();
    whole_requests_are_sent();
    requests_are_counted();
    asks_are_answered();
    failures_are_rises(wire);
    failures_are_ends();
    starts_are_spent();
    steps_provoke_nothing(wire);
}

/// All laws on which a call over a wire rests. It does nothing.
pub fn calls_rest_on_laws<W: Dial>(wire: &W)
    ensures lawful { IsLawful (W.allows wire.now) (W.state wire.now) }
    ensures solutions { Laws }
    ensures traffic { TrafficLaws }
{
    is_lawful(wire);
    solutions_rest_on_laws();
    traffic_rests_on_laws(wire);
}

/// A bound of a body is below 2^64. It does nothing.
pub fn is_bounded(max_body: u64)
    ensures { max_body < 2 ^ 64 }
{}

/// A block has one row at least, and no more than an address may have. It does nothing.
pub fn is_sized(block: BlockSize)
    ensures low { 1 ≤ block }
    ensures high { block ≤ MOST_ROWS }
{
    block.get();
}
