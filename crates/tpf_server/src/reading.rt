// How far the heads of a connection are read.
ghost use Rattle.std.specs.Prelude.{◌≡◌};
ghost use Rattle.tpf_server.specs.Reading.{is_ended, waits, when_starved};

/// What becomes of the heads that come next.
#[derive(Clone, Copy)]
pub enum Reading {
    /// They are read as they come.
    Reads,
    /// The next one asks for a reload, whose outcome is not known. The connection ends with the answer
    /// to it, or not.
    Waits(bool),
    /// The connection ends with an answer that was given before them.
    Ended,
}

/// What was read of the bytes that came.
#[derive(Clone, Copy)]
pub enum HeadRead {
    /// No whole head stands next.
    Nothing,
    /// A head whose answer is owed; the connection ends with it, or not.
    Answered(bool),
    /// A head that asks for a reload; the connection ends with the answer to it, or not.
    Reload(bool),
}

impl Reading {
    /// Whether nothing more is read.
    pub fn is_ended(self) -> bool
        ensures { result ≡ is_ended self }
    {
        match self {
            Reading::Reads => false,
            Reading::Waits(_) => false,
            Reading::Ended => true,
        }
    }

    /// Whether the outcome of a reload is waited for.
    pub fn waits(self) -> bool
        ensures { result ≡ waits self }
    {
        match self {
            Reading::Reads => false,
            Reading::Waits(_) => true,
            Reading::Ended => false,
        }
    }

    /// The same once it is out of memory: no reload is waited for.
    pub fn when_starved(self) -> Reading
        ensures { result ≡ when_starved self }
    {
        match self {
            Reading::Reads => Reading::Reads,
            Reading::Waits(_) => Reading::Reads,
            Reading::Ended => Reading::Ended,
        }
    }
}
