// Calls over links that do what scripts say.
use crate::fails::Fails;
use crate::links::{ABC, ENDING, Link, STAYING, scripts_of};
use crate::long::long_bytes;
use crate::played::{Call, Played};
use script_wire::{Script, ScriptWire};
use std::alloc::Global;
use std::process::Abort;
use std::test::Fail;
use tpf_base::{Bytes, Dial, Failing, Fault, Moved, Ready, Wire};

/// Calls on a wire of scripts.
struct Case<'a> {
    /// What they show.
    shows: &'a str,
    /// What comes on the links.
    links: &'a [Link<'a>],
    /// Which calls fail.
    fails: Fails,
    /// The calls, one after another, each with what it has to answer.
    calls: &'a [Call],
}

/// What comes on a link, as it is received.
static COMING: [Case; 8] = [
    Case {
        shows: "a piece comes after a stall",
        links: &[ABC],
        fails: Fails::Never,
        calls: &[Call::Dial(Ok(0)), Call::Receive(0, 8, "- abc .")],
    },
    Case {
        shows: "pieces come one by one, after a stall each, and then the end",
        links: &[Link {
            pieces: &["abc", "de"],
            ..ENDING
        }],
        fails: Fails::Never,
        calls: &[Call::Dial(Ok(0)), Call::Receive(0, 8, "- abc - de . . .")],
    },
    Case {
        shows: "behind the pieces of a link that stays nothing comes",
        links: &[Link {
            pieces: &["abc", "de"],
            ..STAYING
        }],
        fails: Fails::Never,
        calls: &[Call::Dial(Ok(0)), Call::Receive(0, 8, "- abc - de - - -")],
    },
    Case {
        shows: "a receive with room for two bytes cuts a piece",
        links: &[Link {
            pieces: &["abc", "de"],
            ..ENDING
        }],
        fails: Fails::Never,
        calls: &[Call::Dial(Ok(0)), Call::Receive(0, 2, "- ab c - de . .")],
    },
    Case {
        shows: "so does one with room for a byte",
        links: &[Link {
            pieces: &["abc", "de"],
            ..ENDING
        }],
        fails: Fails::Never,
        calls: &[Call::Dial(Ok(0)), Call::Receive(0, 1, "- a b c - d e")],
    },
    Case {
        shows: "in place of a piece without bytes comes a second stall",
        links: &[Link {
            pieces: &["", "de"],
            ..ENDING
        }],
        fails: Fails::Never,
        calls: &[Call::Dial(Ok(0)), Call::Receive(0, 8, "- - - de . . .")],
    },
    Case {
        shows: "without a piece the end comes at once",
        links: &[ENDING],
        fails: Fails::Never,
        calls: &[Call::Dial(Ok(0)), Call::Receive(0, 8, ". . . . . . .")],
    },
    Case {
        shows: "the first piece comes once enough links have spoken",
        links: &[
            Link {
                after: 2,
                pieces: &["abc"],
                ..ENDING
            },
            ABC,
        ],
        fails: Fails::Never,
        calls: &[
            Call::Dial(Ok(0)),
            Call::Dial(Ok(1)),
            Call::Receive(0, 8, "- -"),
            Call::Send(0, "xy", Moved::Moved(2)),
            // One link has spoken.
            Call::Receive(0, 8, "- -"),
            Call::Send(1, "z", Moved::Moved(1)),
            Call::Receive(0, 8, "abc ."),
            Call::Links(2),
            Call::Sent(0, "xy"),
            Call::Sent(1, "z"),
        ],
    },
];

/// How many bytes a send takes.
static SENT: [Case; 4] = [
    Case {
        shows: "a send takes no byte where the script says so",
        links: &[Link { most: 0, ..ENDING }],
        fails: Fails::Never,
        calls: &[
            Call::Dial(Ok(0)),
            Call::Send(0, "abcdef", Moved::NotYet),
            Call::Sent(0, ""),
        ],
    },
    Case {
        shows: "a send takes a byte where the script says so",
        links: &[Link { most: 1, ..ENDING }],
        fails: Fails::Never,
        calls: &[
            Call::Dial(Ok(0)),
            Call::Send(0, "abcdef", Moved::Moved(1)),
            Call::Sent(0, "a"),
        ],
    },
    Case {
        shows: "a send takes at most four bytes where the script says so",
        links: &[Link { most: 4, ..ENDING }],
        fails: Fails::Never,
        calls: &[
            Call::Dial(Ok(0)),
            Call::Send(0, "abcdef", Moved::Moved(4)),
            Call::Sent(0, "abcd"),
        ],
    },
    Case {
        shows: "a send takes all bytes where the script takes more",
        links: &[ENDING],
        fails: Fails::Never,
        calls: &[
            Call::Dial(Ok(0)),
            Call::Send(0, "abcdef", Moved::Moved(6)),
            Call::Sent(0, "abcdef"),
        ],
    },
];

/// What a wait answers.
static WAITED: [Case; 1] = [Case {
    shows: "a wait answers what can move",
    links: &[
        STAYING,
        Link {
            pieces: &["a"],
            ..ENDING
        },
        STAYING,
    ],
    fails: Fails::Never,
    calls: &[
        // No link, and the door is closed.
        Call::Wait(Err(Fault::Failed)),
        Call::Listen(Ok(())),
        Call::Wait(Ok(Ready::Door)),
        Call::Accept(Ok(Some(0))),
        // A link was given.
        Call::Idle(0),
        Call::Dial(Ok(1)),
        Call::Wait(Ok(Ready::Link(1))),
        Call::Look,
        // A look is no wait.
        Call::Idle(1),
        Call::Wait(Ok(Ready::Link(1))),
        Call::Idle(2),
        Call::Receive(1, 8, "- a"),
        // A byte moved.
        Call::Idle(0),
        // The end is to come.
        Call::Wait(Ok(Ready::Link(1))),
        Call::Receive(1, 8, "."),
        Call::Wait(Ok(Ready::Door)),
        Call::Dial(Ok(2)),
        // No script is left.
        Call::Wait(Err(Fault::Failed)),
        Call::Dial(Err(Fault::Failed)),
        Call::Accept(Ok(None)),
    ],
}];

/// Which calls fail, by how many were made or how many bytes moved before.
static FAILING: [Case; 6] = [
    Case {
        shows: "no call fails",
        links: &[ABC, ABC],
        fails: Fails::Never,
        calls: &[
            Call::Dial(Ok(0)),
            Call::Listen(Ok(())),
            Call::Send(0, "x", Moved::Moved(1)),
            Call::Receive(0, 8, "-"),
            Call::Wait(Ok(Ready::Link(0))),
            Call::Accept(Ok(Some(1))),
        ],
    },
    Case {
        shows: "each second call fails",
        links: &[ABC, ABC],
        fails: Fails::Every(2),
        calls: &[
            Call::Dial(Ok(0)),
            Call::Listen(Err(Fault::Failed)),
            Call::Send(0, "x", Moved::Moved(1)),
            Call::Receive(0, 8, "F"),
            Call::Wait(Ok(Ready::Link(0))),
        ],
    },
    Case {
        shows: "each call fails",
        links: &[ABC, ABC],
        fails: Fails::Every(1),
        calls: &[
            Call::Dial(Err(Fault::Failed)),
            Call::Listen(Err(Fault::Failed)),
            Call::Wait(Err(Fault::Failed)),
        ],
    },
    Case {
        shows: "each call fails before a byte has moved",
        links: &[ABC, ABC],
        fails: Fails::AfterBytes(0),
        calls: &[
            Call::Dial(Err(Fault::Failed)),
            Call::Listen(Err(Fault::Failed)),
            Call::Wait(Err(Fault::Failed)),
        ],
    },
    Case {
        shows: "each call fails once a byte has moved",
        links: &[ABC, ABC],
        fails: Fails::AfterBytes(1),
        calls: &[
            Call::Dial(Ok(0)),
            Call::Listen(Ok(())),
            Call::Send(0, "x", Moved::Moved(1)),
            Call::Receive(0, 8, "F"),
            Call::Wait(Err(Fault::Failed)),
            Call::Accept(Err(Fault::Failed)),
        ],
    },
    Case {
        shows: "each dial fails, and no other call",
        links: &[ABC, ABC],
        fails: Fails::Dials(1),
        calls: &[
            Call::Dial(Err(Fault::Failed)),
            Call::Listen(Ok(())),
            Call::Wait(Ok(Ready::Door)),
            Call::Accept(Ok(Some(0))),
        ],
    },
];

/// The one call that fails, among six.
static ONE_FAILING: [Case; 6] = [
    Case {
        shows: "the first call fails",
        links: &[ABC, ABC],
        fails: Fails::At(&[1]),
        calls: &[
            Call::Dial(Err(Fault::Failed)),
            Call::Listen(Ok(())),
            Call::Wait(Ok(Ready::Door)),
            Call::Accept(Ok(Some(0))),
        ],
    },
    Case {
        shows: "the second call fails",
        links: &[ABC, ABC],
        fails: Fails::At(&[2]),
        calls: &[
            Call::Dial(Ok(0)),
            Call::Listen(Err(Fault::Failed)),
            Call::Send(0, "x", Moved::Moved(1)),
            Call::Receive(0, 8, "-"),
            Call::Wait(Ok(Ready::Link(0))),
        ],
    },
    Case {
        shows: "the third call fails",
        links: &[ABC, ABC],
        fails: Fails::At(&[3]),
        calls: &[
            Call::Dial(Ok(0)),
            Call::Listen(Ok(())),
            Call::Send(0, "x", Moved::Failed),
            Call::Receive(0, 8, "-"),
            Call::Wait(Ok(Ready::Link(0))),
            Call::Accept(Ok(Some(1))),
        ],
    },
    Case {
        shows: "the fourth call fails",
        links: &[ABC, ABC],
        fails: Fails::At(&[4]),
        calls: &[
            Call::Dial(Ok(0)),
            Call::Listen(Ok(())),
            Call::Send(0, "x", Moved::Moved(1)),
            Call::Receive(0, 8, "F"),
            Call::Wait(Ok(Ready::Link(0))),
            Call::Accept(Ok(Some(1))),
        ],
    },
    Case {
        shows: "the fifth call fails",
        links: &[ABC, ABC],
        fails: Fails::At(&[5]),
        calls: &[
            Call::Dial(Ok(0)),
            Call::Listen(Ok(())),
            Call::Send(0, "x", Moved::Moved(1)),
            Call::Receive(0, 8, "-"),
            Call::Wait(Err(Fault::Failed)),
            Call::Accept(Ok(Some(1))),
        ],
    },
    Case {
        shows: "the sixth call fails",
        links: &[ABC, ABC],
        fails: Fails::At(&[6]),
        calls: &[
            Call::Dial(Ok(0)),
            Call::Listen(Ok(())),
            Call::Send(0, "x", Moved::Moved(1)),
            Call::Receive(0, 8, "-"),
            Call::Wait(Ok(Ready::Link(0))),
            Call::Accept(Err(Fault::Failed)),
        ],
    },
];

/// Which dials fail.
static DIALS_FAILING: [Case; 4] = [
    Case {
        shows: "a dial counts among the calls",
        links: &[Link { times: 6, ..ABC }],
        fails: Fails::Every(2),
        calls: &[
            Call::Listen(Ok(())),
            Call::Dial(Err(Fault::Failed)),
            Call::Wait(Ok(Ready::Door)),
            Call::Accept(Err(Fault::Failed)),
        ],
    },
    Case {
        shows: "dials count by themselves",
        links: &[Link { times: 6, ..ABC }],
        fails: Fails::Dials(2),
        calls: &[
            Call::Dial(Ok(0)),
            Call::Listen(Ok(())),
            Call::Accept(Ok(Some(1))),
            // The second dial.
            Call::Dial(Err(Fault::Failed)),
        ],
    },
    Case {
        shows: "each third dial fails",
        links: &[Link { times: 6, ..ABC }],
        fails: Fails::Dials(3),
        calls: &[
            Call::Dial(Ok(0)),
            Call::Dial(Ok(1)),
            Call::Dial(Err(Fault::Failed)),
            Call::Dial(Ok(2)),
            Call::Dial(Ok(3)),
            Call::Dial(Err(Fault::Failed)),
        ],
    },
    Case {
        shows: "each dial succeeds where the number is 0",
        links: &[Link { times: 6, ..ABC }],
        fails: Fails::Dials(0),
        calls: &[Call::Dial(Ok(0)), Call::Dial(Ok(1)), Call::Dial(Ok(2))],
    },
];

/// Makes the calls of a case, each of which answers what the case says.
fn run_case<R: Abort>(rt: &R, alloc: Global, case: &Case) -> Result<(), Fail> {
    let scripts = scripts_of(alloc, case.links)?;
    let failing = case.fails.failing(alloc)?;
    let mut wire = Played::new(alloc, scripts, failing);
    assert_eq!(rt; wire.first_unlike(case.calls), None, "{}", case.shows);
    Ok(())
}

/// The same of several cases.
fn run_cases<R: Abort>(rt: &R, alloc: Global, cases: &[Case]) -> Result<(), Fail> {
    for case in cases {
        run_case(rt, alloc, case)?;
    }
    Ok(())
}

#[test]
fn what_comes_is_what_the_script_says(rt: HostRuntime) -> Result<(), Fail> {
    run_cases(&rt, rt.alloc(), COMING.as_slice())
}

#[test]
fn a_send_takes_what_the_script_says(rt: HostRuntime) -> Result<(), Fail> {
    run_cases(&rt, rt.alloc(), SENT.as_slice())
}

#[test]
fn a_wait_answers_what_can_move(rt: HostRuntime) -> Result<(), Fail> {
    run_cases(&rt, rt.alloc(), WAITED.as_slice())
}

#[test]
fn calls_fail_as_the_plan_says(rt: HostRuntime) -> Result<(), Fail> {
    run_cases(&rt, rt.alloc(), FAILING.as_slice())
}

#[test]
fn one_call_of_six_fails(rt: HostRuntime) -> Result<(), Fail> {
    run_cases(&rt, rt.alloc(), ONE_FAILING.as_slice())
}

#[test]
fn dials_fail_as_the_plan_says(rt: HostRuntime) -> Result<(), Fail> {
    run_cases(&rt, rt.alloc(), DIALS_FAILING.as_slice())
}

/// The answers of a dial and two receives.
type Answers = (Result<u64, Fault>, Moved, Moved);

/// Receives a piece.
fn receive_whole(alloc: Global, piece: &[u8], to: &mut [u8]) -> Result<Answers, Fail> {
    let mut pieces = Vec::new(alloc);
    pieces.push(Bytes::copy(alloc, piece)?)?;
    let mut scripts = Vec::new(alloc);
    scripts.push(Script {
        after: 0,
        pieces,
        ends: true,
        most: 65536,
    })?;
    let mut wire = Played::new(alloc, scripts, Failing::Never);
    Ok((wire.dial("host", 80), wire.recv(0, to), wire.recv(0, to)))
}

#[test]
fn a_wire_of_scripts_tells_the_bytes_of_a_large_reply(rt: HostRuntime) -> Result<(), Fail> {
    let piece = long_bytes(rt.alloc(), 300_000)?;
    let mut buffer = vec![in rt.alloc(); 0u8; 400_000]?;
    let answers = receive_whole(rt.alloc(), piece.as_slice(), buffer.as_mut_slice())?;
    let is_same = buffer.as_slice().starts_with(piece.as_slice());
    let wanted = (Ok(0), Moved::NotYet, Moved::Moved(300_000));
    assert_eq!(rt; (answers, is_same), (wanted, true));
    Ok(())
}

/// The one link of a wire.
static ONE: [Link; 1] = [ABC];

#[test]
fn nothing_comes_on_a_closed_link(rt: HostRuntime) -> Result<(), Fail> {
    let scripts = scripts_of(rt.alloc(), ONE.as_slice())?;
    let mut wire = ScriptWire::new(rt.alloc(), scripts, Failing::Never);
    let Ok(link) = wire.dial("host", 80) else {
        return Err(Fail::new("the dial"));
    };
    wire.close(link);
    assert_eq!(rt; wire.wait(), Err(Fault::Failed));
    Ok(())
}
