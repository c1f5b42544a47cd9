// Links that do what scripts say.
use script_wire::Script;
use std::alloc::Global;
use std::test::Fail;
use tpf_base::Bytes;

/// What a peer does on a link.
#[derive(Clone, Copy)]
pub struct Link<'a> {
    /// How many links do so, one behind the other.
    pub times: usize,
    /// On how many links a byte has to be sent before the first piece comes.
    pub after: u64,
    /// What comes on it.
    pub pieces: &'a [&'a str],
    /// Whether the end comes behind them, or nothing more.
    pub ends: bool,
    /// How many bytes a send takes.
    pub most: usize,
}

/// A link on which the end comes behind the pieces.
pub const ENDING: Link = Link {
    times: 1,
    after: 0,
    pieces: &[],
    ends: true,
    most: 65536,
};

/// A link on which nothing more comes behind the pieces.
pub const STAYING: Link = Link {
    ends: false,
    ..ENDING
};

/// A link on which one piece comes, and then the end.
pub const ABC: Link = Link {
    pieces: &["abc"],
    ..ENDING
};

fn script(alloc: Global, link: &Link) -> Result<Script, Fail> {
    let mut pieces = Vec::new(alloc);
    for piece in link.pieces {
        pieces.push(Bytes::copy(alloc, piece.as_bytes())?)?;
    }
    Ok(Script {
        after: link.after,
        pieces,
        ends: link.ends,
        most: link.most,
    })
}

/// The scripts of these links.
pub fn scripts_of(alloc: Global, links: &[Link]) -> Result<Vec<Script>, Fail> {
    let mut scripts = Vec::new(alloc);
    for link in links {
        for _ in 0..link.times {
            scripts.push(script(alloc, link)?)?;
        }
    }
    Ok(scripts)
}
