// A server of echoes over links that do what scripts say.
use crate::fails::Fails;
use crate::links::{ABC, ENDING, Link, STAYING, scripts_of};
use connections::NoSupply;
use echo_server::{Echo, EchoServer};
use script_wire::ScriptWire;
use serve_loop::{ServeFault, Served, serve};
use std::alloc::Global;
use std::process::Abort;
use std::sync::Wait;
use std::test::Fail;
use tpf_base::Accept;

/// What a service answers at the door of a wire; nothing where the door does not open.
type Service = Option<Result<Served, ServeFault>>;

/// What a service answers that ended after one connection, which did not end for want of memory.
const ONE_ENDED: Service = Some(Ok(Served {
    connections: 1,
    starved: 0,
}));

/// The same after two connections.
const TWO_ENDED: Service = Some(Ok(Served {
    connections: 2,
    starved: 0,
}));

/// The same after three.
const THREE_ENDED: Service = Some(Ok(Served {
    connections: 3,
    starved: 0,
}));

/// Serves echoes at the door of a wire with these scripts until so many connections have ended.
fn echoed<R: Wait>(rt: &R, alloc: Global, wire: &mut ScriptWire, stop_after: u64) -> Service {
    if wire.listen("localhost", 80).is_err() {
        return None;
    }
    let mut server = EchoServer::new(7);
    let mut supply = NoSupply::new();
    Some(serve::<_, Echo, _, _>(rt, alloc, &mut server, &mut supply, wire, Some(stop_after)))
}

/// From one link up to another, the text that is sent on each.
struct Sent<'a>(usize, usize, &'a str);

/// A service of echoes at a wire.
struct Case<'a> {
    /// What it shows.
    shows: &'a str,
    /// What comes on the links.
    links: &'a [Link<'a>],
    /// Which calls fail.
    fails: Fails,
    /// After how many connections it stops.
    stop_after: u64,
    /// What it answers.
    ended: Service,
    /// How many links are given.
    given: usize,
    /// What is sent on them.
    sent: &'a [Sent<'a>],
}

/// Links that get back what comes on them.
static RETURNED: [Case; 3] = [
    Case {
        shows: "what a send did not take is sent by the next one",
        links: &[Link { most: 2, ..ABC }],
        fails: Fails::Never,
        stop_after: 1,
        ended: ONE_ENDED,
        given: 1,
        sent: &[Sent(0, 1, "abc")],
    },
    Case {
        shows: "links whose bytes come by turns get their own back",
        links: &[
            Link {
                pieces: &["ab", "", "cd"],
                ..ENDING
            },
            Link {
                pieces: &["12", "34", "5"],
                most: 1,
                ..ENDING
            },
        ],
        fails: Fails::Never,
        stop_after: 2,
        ended: TWO_ENDED,
        given: 2,
        sent: &[Sent(0, 1, "abcd"), Sent(1, 2, "12345")],
    },
    Case {
        shows: "a peer that never reads holds up no other",
        links: &[
            Link {
                pieces: &["abc"],
                most: 0,
                ..STAYING
            },
            Link {
                pieces: &["12", "34"],
                ..ENDING
            },
        ],
        fails: Fails::Never,
        stop_after: 1,
        ended: ONE_ENDED,
        given: 2,
        sent: &[Sent(0, 1, ""), Sent(1, 2, "1234")],
    },
];

/// Calls that fail, and what ends by it.
static FAILING: [Case; 3] = [
    Case {
        shows: "a door that fails ends the service",
        links: &[ABC],
        fails: Fails::At(&[2]),
        stop_after: 1,
        ended: Some(Err(ServeFault::Wire)),
        given: 0,
        sent: &[],
    },
    Case {
        shows: "a door that fails behind a turn ends the service",
        links: &[
            ABC,
            Link {
                pieces: &["12"],
                ..ENDING
            },
        ],
        // The listen, an accept, a receive, and then the accept behind that turn.
        fails: Fails::At(&[4]),
        stop_after: 1,
        ended: Some(Err(ServeFault::Wire)),
        given: 1,
        sent: &[],
    },
    Case {
        shows: "a link that fails ends alone",
        links: &[
            ABC,
            Link {
                pieces: &["12", "34"],
                ..ENDING
            },
            Link {
                pieces: &["xy"],
                most: 1,
                ..ENDING
            },
        ],
        // The listen, an accept, a receive, three accepts behind that turn, an accept, and the
        // send on the first link.
        fails: Fails::At(&[8]),
        stop_after: 3,
        ended: THREE_ENDED,
        given: 3,
        sent: &[Sent(0, 1, ""), Sent(1, 2, "1234"), Sent(2, 3, "xy")],
    },
];

/// Many links at once.
static MANY: [Case; 2] = [
    Case {
        shows: "all that wait are accepted behind the first turn",
        // The first link ends in the third turn.
        links: &[Link {
            times: 20,
            pieces: &["a"],
            ..ENDING
        }],
        fails: Fails::Never,
        stop_after: 1,
        ended: ONE_ENDED,
        given: 20,
        sent: &[],
    },
    Case {
        shows: "sixteen links of a round are stepped in a turn",
        links: &[
            Link {
                pieces: &["a", "b"],
                ..ENDING
            },
            Link {
                times: 39,
                pieces: &["a", "b", "c", "d"],
                ..STAYING
            },
        ],
        fails: Fails::Never,
        stop_after: 1,
        ended: ONE_ENDED,
        given: 40,
        // All are stepped in the first three turns, in which they are new, and then 32 to 39, 0 to
        // 15, 16 to 31, 32 to 39, and 0 to 15, where the first link ends.
        sent: &[Sent(0, 16, "ab"), Sent(16, 32, "a"), Sent(32, 40, "ab")],
    },
];

/// More links than may be live.
static FULL: [Case; 2] = [
    Case {
        shows: "a link that comes late is answered before a round has ended",
        links: &[
            Link {
                pieces: &["a"],
                ..ENDING
            },
            Link {
                times: 255,
                pieces: &["a", "b", "c", "d"],
                ..STAYING
            },
            // There is room for it only when the first has ended.
            Link {
                pieces: &["z"],
                ..ENDING
            },
        ],
        fails: Fails::Never,
        stop_after: 2,
        ended: TWO_ENDED,
        given: 257,
        // It was answered in the two turns behind its accept; its end was seen when its place in
        // the round came.
        sent: &[Sent(256, 257, "z"), Sent(0, 256, "a")],
    },
    Case {
        shows: "a link waits at the door while 256 are live",
        links: &[
            // It stalls six hundred times before it ends.
            Link {
                pieces: &[""; 300],
                ..ENDING
            },
            Link {
                times: 256,
                ..STAYING
            },
        ],
        fails: Fails::Never,
        stop_after: 1,
        ended: ONE_ENDED,
        given: 256,
        sent: &[],
    },
];

/// The first of some links on which another text was sent.
fn first_unlike(wire: &ScriptWire, wanted: &Sent) -> Option<usize> {
    let Sent(from, to, text) = wanted;
    for i in *from..*to {
        if i >= wire.links() {
            return Some(i);
        }
        if wire.sent_on(i) != text.as_bytes() {
            return Some(i);
        }
    }
    None
}

/// The same of several such.
fn unlike(wire: &ScriptWire, wanted: &[Sent]) -> Option<usize> {
    for sent in wanted {
        if let Some(link) = first_unlike(wire, sent) {
            return Some(link);
        }
    }
    None
}

/// Serves echoes at the wire of a case, and what comes of it is what the case says.
fn run_case<R: Wait + Abort>(rt: &R, alloc: Global, case: &Case) -> Result<(), Fail> {
    let scripts = scripts_of(alloc, case.links)?;
    let failing = case.fails.failing(alloc)?;
    let mut wire = ScriptWire::new(alloc, scripts, failing);
    let ended = echoed(rt, alloc, &mut wire, case.stop_after);
    let came = (ended, wire.links(), unlike(&wire, case.sent));
    assert_eq!(rt; came, (case.ended, case.given, None), "{}", case.shows);
    Ok(())
}

/// The same of several cases.
fn run_cases<R: Wait + Abort>(rt: &R, alloc: Global, cases: &[Case]) -> Result<(), Fail> {
    for case in cases {
        run_case(rt, alloc, case)?;
    }
    Ok(())
}

#[test]
fn echoes_come_back_on_their_links(rt: HostRuntime) -> Result<(), Fail> {
    run_cases(&rt, rt.alloc(), RETURNED.as_slice())
}

#[test]
fn a_door_or_a_link_fails(rt: HostRuntime) -> Result<(), Fail> {
    run_cases(&rt, rt.alloc(), FAILING.as_slice())
}

#[test]
fn many_links_are_served_in_turns(rt: HostRuntime) -> Result<(), Fail> {
    run_cases(&rt, rt.alloc(), MANY.as_slice())
}

#[test]
fn a_link_waits_while_256_are_live(rt: HostRuntime) -> Result<(), Fail> {
    run_cases(&rt, rt.alloc(), FULL.as_slice())
}
