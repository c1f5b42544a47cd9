// The exit statuses.
ghost use Rattle.std.specs.Prelude.{◌≡◌};
ghost use Rattle.command_endings.specs.Statuses.{code_of};

/// How a run ends, by its exit status.
#[derive(Clone, Copy)]
pub enum Status {
    /// 0: the command was done to its end.
    Done,
    /// 2: the words are no command.
    Usage,
    /// 3: the data are not served.
    Data,
    /// 4: the query is not read.
    Query,
    /// 5: a request failed too often.
    Exchange,
    /// 6: a reply is refused.
    Reply,
    /// 7: the budget is spent.
    Budget,
    /// 8: memory ran out.
    Memory,
    /// 9: the output failed.
    Output,
    /// 10: a file could not be read.
    File,
    /// 11: the data changed.
    Changed,
    /// 12: the listener or a wait failed.
    Wire,
}

impl Status {
    /// The number with which the process ends.
    pub fn code(self) -> u8
        ensures { result ≡ code_of self }
    {
        match self {
            Status::Done => 0,
            Status::Usage => 2,
            Status::Data => 3,
            Status::Query => 4,
            Status::Exchange => 5,
            Status::Reply => 6,
            Status::Budget => 7,
            Status::Memory => 8,
            Status::Output => 9,
            Status::File => 10,
            Status::Changed => 11,
            Status::Wire => 12,
        }
    }
}
