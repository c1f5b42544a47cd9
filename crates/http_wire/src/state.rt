// What was read of a reply so far, and one byte further.
ghost use Rattle.std.specs.Prelude.{ℕ, List, ◌≡◌, ◌≢◌, ◌+◌, ◌*◌, ◌^◌, ◌≤◌, ◌<◌, ◌∷◌, ◌++◌, [], length, false};
ghost use Rattle.tpf_base.specs.HttpHeads.{ends_empty};
ghost use Rattle.tpf_base.specs.HttpReply.{Gathered, Failed, InSized, InUnsized, InChunk, AtReturn, AtNewline, after_byte, is_over, is_padded, line_place, after_head_byte, after_line_byte, after_trailer_byte, with_extra, chunk_size};
ghost use Rattle.tpf_base.specs.declared.limits.TheConstants.{PADDING_LIMIT};
ghost use Rattle.http_wire.specs.declared.state.Stage.{Stage};

use crate::chunk::chunk_size;
use crate::framing::{Next, judge_reply};
use crate::heads::{ends_empty, part_of};
use crate::message::ReplyFault;
use tpf_base::{HEADS_LIMIT, LINE_LIMIT, PADDING_LIMIT};

/// Where in a reply the bytes so far end.
#[derive(Clone, Copy, PartialEq, Eq)]
pub enum Stage {
    /// In a head, which is held.
    Heads,
    /// In a body of which so many bytes are wanted.
    Sized(u64),
    /// In a body that runs to the close.
    Unsized,
    /// In a chunk line, which is held.
    Line,
    /// In a chunk of which so many bytes are wanted.
    Chunk(u64),
    /// Behind a chunk, where CR is wanted.
    Return,
    /// Behind that CR, where LF is wanted.
    Newline,
    /// In the lines behind the last chunk, which are held.
    Trailer,
    Finished,
    Failed(ReplyFault),
}

/// Where the bytes belong that were read last.
#[derive(Clone, Copy)]
pub enum Part {
    /// To the body.
    Body,
    /// To a head or a line, which goes on.
    Line,
    /// To what frames the body, and no head or line goes on behind them.
    Frame,
}

/// What was read so far of a reply, whose bytes stand elsewhere.
#[derive(Clone, Copy)]
pub struct State {
    pub limit: u64,
    pub stage: Stage,
    /// The bytes of the heads that were passed over.
    pub passed: u64,
    /// Where the head or the line that goes on begins, and else the place behind what was read.
    pub begins: usize,
    pub keeps: bool,
    /// The length of the body so far.
    pub count: usize,
    /// The bytes of chunk lines and of line ends behind chunks.
    pub extra: u128,
    ghost padded: { extra ≤ PADDING_LIMIT + 8 * count },
    ghost fresh: { stage ≡ Stage.Heads → count ≡ 0 },
}

/// Whether these lines end in an empty one, the first line counted.
#[tactic(auto, unfolding(tpf_base::specs::HttpHeads::ends_empty))]
fn ends_trailer(lines: &[u8]) -> bool
    ensures { result ≡ ends_empty (10 ∷ lines.now) (length lines.now + 1) }
{
    match lines {
        [] => false,
        [a] => *a == b'\n',
        [a, b] => *b == b'\n' && (*a == b'\n' || *a == b'\r'),
        [.., a, b, c] => *c == b'\n' && (*b == b'\n' || (*b == b'\r' && *a == b'\n')),
    }
}

impl State {
    ghost use Rattle.http_wire.specs.Places.{place_of, gathered_of, start_place, judged_place, IsOpenAt, TakesByte, PassesByte, room_for, with_run, line_behind, body_behind, count_behind, Keeps, ReadsTo};
    ghost use Rattle.http_wire.specs.Replies.{fault_of};

    /// No byte was read.
    pub fn new(limit: u64) -> State
        ensures limit { result.limit ≡ limit }
        ensures stage { result.stage ≡ Stage.Heads }
        ensures passed { result.passed ≡ 0 }
        ensures begins { result.begins ≡ 0 }
        ensures count { result.count ≡ 0 }
    {
        State {
            limit,
            stage: Stage::Heads,
            passed: 0,
            begins: 0,
            keeps: false,
            count: 0,
            extra: 0,
        }
    }

    fn fail(&mut self, fault: ReplyFault)
        ensures place { (line body : List ℕ) → place_of self.new line body ≡ Failed (fault_of fault) }
        ensures keeps { Keeps self.old self.new }
    {
        self.stage = Stage::Failed(fault);
    }

    /// Begins the body.
    fn start(&mut self, next: Next)
        requires { self.old.stage ≡ Stage.Heads }
        ensures place { place_of self.new [] [] ≡ start_place next }
        ensures keeps { Keeps self.old self.new }
    {
        self.extra = 0;
        match next {
            Next::Refused(fault) => self.stage = Stage::Failed(fault),
            Next::Empty(keeps) => {
                self.keeps = keeps;
                self.stage = Stage::Finished;
            }
            Next::Sized(n, keeps) => {
                self.keeps = keeps;
                self.stage = Stage::Sized(n);
            }
            Next::Chunked(keeps) => {
                self.keeps = keeps;
                self.stage = Stage::Line;
            }
            Next::ToClose => {
                self.keeps = false;
                self.stage = Stage::Unsized;
            }
        }
    }

    /// The bytes of the heads so far, with those of this one.
    fn head_bytes(&self, head: &[u8]) -> u128
        ensures is { result ≡ self.now.passed + length head.now }
        ensures fits { result < 2 ^ 65 }
    {
        u128::from(self.passed) + head.len() as u128
    }

    /// What becomes of a whole head.
    fn head_end(&mut self, head: &[u8])
        requires { self.old.stage ≡ Stage.Heads }
        ensures place { place_of self.new [] []
            ≡ judged_place self.old.limit (self.old.passed + length head.now) head.now }
        ensures keeps { Keeps self.old self.new }
    {
        let total = self.head_bytes(head);
        match judge_reply(head, self.limit) {
            Some(next) => self.start(next),
            None => {
                if total >= HEADS_LIMIT as u128 {
                    self.fail(ReplyFault::TooLong);
                } else {
                    self.passed = total as u64;
                }
            }
        }
    }

    /// Reads the last byte of this much of a head.
    #[tactic(auto, unfolding(tpf_base::specs::HttpReply::after_head_byte, crate::specs::Places::judged_place))]
    fn head_byte(&mut self, head: &[u8]) -> Part
        requires { self.old.stage ≡ Stage.Heads }
        ensures place { place_of self.new (line_behind result head.now) []
            ≡ after_head_byte self.old.limit self.old.passed head.now }
        ensures part { result ≢ Part.Body }
        ensures keeps { Keeps self.old self.new }
    {
        if ends_empty(head, head.len()) {
            self.head_end(head);
            return Part::Frame;
        }
        if self.head_bytes(head) >= HEADS_LIMIT as u128 {
            self.fail(ReplyFault::TooLong);
        }
        Part::Line
    }

    #[tactic(auto, using(std::proofs::lemmas::List::length_push))]
    fn sized_byte(&mut self, wanted: u64)
        requires sized { self.old.stage ≡ Stage.Sized wanted }
        requires room { self.old.count < 2 ^ 63 }
        ensures place { (body : List ℕ) (b : ℕ) → place_of self.new [] (body ++ b ∷ [])
            ≡ after_byte self.old.limit (InSized wanted (gathered_of self.old body)) b }
        ensures count { self.new.count ≡ self.old.count + 1 }
        ensures limit { self.new.limit ≡ self.old.limit }
        ensures begins { self.new.begins ≡ self.old.begins }
    {
        self.count += 1;
        self.stage = if wanted <= 1 {
            Stage::Finished
        } else {
            Stage::Sized(wanted - 1)
        };
    }

    /// Whether the body passes the limit.
    #[tactic(auto, unfolding(tpf_base::specs::HttpReply::is_over))]
    fn is_over(&self) -> bool
        ensures { (body : List ℕ) → length body ≡ self.now.count
            → result ≡ is_over self.now.limit (gathered_of self.now body) }
    {
        self.count as u64 > self.limit
    }

    #[tactic(auto, using(std::proofs::lemmas::List::length_push))]
    fn unsized_byte(&mut self)
        requires unsized_ { self.old.stage ≡ Stage.Unsized }
        requires room { self.old.count < 2 ^ 63 }
        ensures place { TakesByte self.old self.new InUnsized }
        ensures count { self.new.count ≡ self.old.count + 1 }
        ensures limit { self.new.limit ≡ self.old.limit }
        ensures begins { self.new.begins ≡ self.old.begins }
    {
        self.count += 1;
        if self.is_over() {
            self.fail(ReplyFault::TooLong);
        }
    }

    #[tactic(auto, using(std::proofs::lemmas::List::length_push))]
    fn chunk_byte(&mut self, wanted: u64)
        requires chunk { self.old.stage ≡ Stage.Chunk wanted }
        requires room { self.old.count < 2 ^ 63 }
        ensures place { TakesByte self.old self.new (InChunk wanted) }
        ensures count { self.new.count ≡ self.old.count + 1 }
        ensures limit { self.new.limit ≡ self.old.limit }
        ensures begins { self.new.begins ≡ self.old.begins }
    {
        self.count += 1;
        if self.is_over() {
            self.fail(ReplyFault::TooLong);
        } else if wanted <= 1 {
            self.stage = Stage::Return;
        } else {
            self.stage = Stage::Chunk(wanted - 1);
        }
    }

    /// Counts one more byte that is none of the body. Whether those are now too many; then the
    /// count stays.
    #[tactic(auto, unfolding(tpf_base::specs::HttpReply::is_padded))]
    fn count_extra(&mut self) -> bool
        ensures padded { (body : List ℕ) → length body ≡ self.old.count
            → result ≡ is_padded (with_extra (gathered_of self.old body)) }
        ensures counted { (body : List ℕ) → result ≡ false
            → gathered_of self.new body ≡ with_extra (gathered_of self.old body) }
        ensures kept { (self.new.stage ≡ self.old.stage) × (self.new.passed ≡ self.old.passed) }
        ensures keeps { Keeps self.old self.new }
    {
        let extra = self.extra + 1;
        if extra > PADDING_LIMIT as u128 + 8 * (self.count as u128) {
            return true;
        }
        self.extra = extra;
        false
    }

    /// What becomes of a whole chunk line.
    #[tactic(auto, unfolding(tpf_base::specs::HttpReply::line_place))]
    fn line_end(&mut self, line: &[u8], padded: bool)
        ensures place { (body : List ℕ) (g : Gathered) → is_padded g ≡ padded
            → (padded ≡ false → gathered_of self.old body ≡ g)
            → place_of self.new [] body ≡ line_place g (chunk_size line.now) }
        ensures keeps { Keeps self.old self.new }
    {
        match chunk_size(line) {
            None => self.fail(ReplyFault::Framing),
            Some(size) => {
                if padded {
                    self.fail(ReplyFault::TooLong);
                } else {
                    self.stage = if size == 0 {
                        Stage::Trailer
                    } else {
                        Stage::Chunk(size)
                    };
                }
            }
        }
    }

    /// Reads the last byte of this much of a chunk line.
    #[tactic(auto, unfolding(tpf_base::specs::HttpReply::after_line_byte))]
    fn line_byte(&mut self, line: &[u8], b: u8) -> Part
        requires { self.old.stage ≡ Stage.Line }
        ensures place { (body : List ℕ) → length body ≡ self.old.count
            → place_of self.new (line_behind result line.now) body
            ≡ after_line_byte line.now b (with_extra (gathered_of self.old body)) }
        ensures part { result ≢ Part.Body }
        ensures keeps { Keeps self.old self.new }
    {
        let padded = self.count_extra();
        if line.len() > LINE_LIMIT {
            self.fail(ReplyFault::Framing);
        } else if b == b'\n' {
            self.line_end(line, padded);
            return Part::Frame;
        } else if padded {
            self.fail(ReplyFault::TooLong);
        }
        Part::Line
    }

    fn return_byte(&mut self, b: u8)
        ensures place { PassesByte self.old self.new b AtReturn }
        ensures keeps { Keeps self.old self.new }
    {
        if b != b'\r' {
            self.fail(ReplyFault::Framing);
        } else if self.count_extra() {
            self.fail(ReplyFault::TooLong);
        } else {
            self.stage = Stage::Newline;
        }
    }

    fn newline_byte(&mut self, b: u8)
        ensures place { PassesByte self.old self.new b AtNewline }
        ensures keeps { Keeps self.old self.new }
    {
        if b != b'\n' {
            self.fail(ReplyFault::Framing);
        } else if self.count_extra() {
            self.fail(ReplyFault::TooLong);
        } else {
            self.stage = Stage::Line;
        }
    }

    /// Reads the last byte of these lines behind the last chunk.
    #[tactic(auto, unfolding(tpf_base::specs::HttpReply::after_trailer_byte))]
    fn trailer_byte(&mut self, lines: &[u8])
        requires { self.old.stage ≡ Stage.Trailer }
        ensures place { (body : List ℕ) → place_of self.new lines.now body
            ≡ after_trailer_byte lines.now (gathered_of self.old body) }
        ensures keeps { Keeps self.old self.new }
    {
        if lines.len() > HEADS_LIMIT {
            self.fail(ReplyFault::TooLong);
        } else if ends_trailer(lines) {
            self.stage = Stage::Finished;
        }
    }

    /// Reads one more byte, which is the last of this much of a head or a line.
    fn byte(&mut self, line: &[u8], b: u8) -> Part
        requires room { self.old.count < 2 ^ 63 }
        ensures place { (held body : List ℕ) → line.now ≡ held ++ b ∷ [] → length body ≡ self.old.count
            → place_of self.new (line_behind result line.now) (body_behind result body (b ∷ []))
            ≡ after_byte self.old.limit (place_of self.old held body) b }
        ensures count { self.new.count ≡ count_behind result self.old.count 1 }
        ensures limit { self.new.limit ≡ self.old.limit }
        ensures begins { self.new.begins ≡ self.old.begins }
    {
        match self.stage {
            Stage::Heads => self.head_byte(line),
            Stage::Line => self.line_byte(line, b),
            Stage::Trailer => {
                self.trailer_byte(line);
                Part::Line
            }
            Stage::Sized(wanted) => {
                self.sized_byte(wanted);
                Part::Body
            }
            Stage::Unsized => {
                self.unsized_byte();
                Part::Body
            }
            Stage::Chunk(wanted) => {
                self.chunk_byte(wanted);
                Part::Body
            }
            Stage::Return => {
                self.return_byte(b);
                Part::Frame
            }
            Stage::Newline => {
                self.newline_byte(b);
                Part::Frame
            }
            Stage::Finished | Stage::Failed(_) => Part::Frame,
        }
    }

    /// How many bytes the body takes before its last one, or the one that passes the limit.
    fn body_room(&self) -> u64
        ensures { result ≡ room_for self.now.limit self.now.stage self.now.count }
    {
        let left = self.limit.saturating_sub(self.count as u64);
        match self.stage {
            Stage::Sized(wanted) => wanted.saturating_sub(1),
            Stage::Unsized => left,
            Stage::Chunk(wanted) => wanted.saturating_sub(1).min(left),
            Stage::Heads
            | Stage::Line
            | Stage::Return
            | Stage::Newline
            | Stage::Trailer
            | Stage::Finished
            | Stage::Failed(_) => 0,
        }
    }

    /// Reads so many bytes of the body at once.
    fn body_run(&mut self, n: usize)
        requires some { 0 < n }
        requires room { n ≤ room_for self.old.limit self.old.stage self.old.count }
        requires fits { self.old.count + n < 2 ^ 63 }
        ensures place { (line body run : List ℕ) → length body ≡ self.old.count → length run ≡ n
            → place_of self.new [] (body ++ run) ≡ with_run (place_of self.old line body) run }
        ensures count { self.new.count ≡ self.old.count + n }
        ensures limit { self.new.limit ≡ self.old.limit }
        ensures begins { self.new.begins ≡ self.old.begins }
    {
        self.count += n;
        match self.stage {
            Stage::Sized(wanted) => self.stage = Stage::Sized(wanted - n as u64),
            Stage::Chunk(wanted) => self.stage = Stage::Chunk(wanted - n as u64),
            Stage::Heads
            | Stage::Unsized
            | Stage::Line
            | Stage::Return
            | Stage::Newline
            | Stage::Trailer
            | Stage::Finished
            | Stage::Failed(_) => {}
        }
    }

    /// Begins behind what was read, unless a head or a line goes on.
    fn pass(&mut self, part: Part, next: usize)
        ensures place { (line body : List ℕ) → place_of self.new line body ≡ place_of self.old line body }
        ensures goes_on { part ≡ Part.Line → self.new.begins ≡ self.old.begins }
        ensures over { part ≢ Part.Line → self.new.begins ≡ next }
        ensures count { self.new.count ≡ self.old.count }
        ensures limit { self.new.limit ≡ self.old.limit }
    {
        match part {
            Part::Line => {}
            Part::Body | Part::Frame => self.begins = next,
        }
    }

    /// Reads the bytes of the body that stand at a place, or one byte, and answers the place behind
    /// them and where they belong.
    pub fn read(&mut self, bytes: &[u8], at: usize) -> (usize, Part)
        requires more { at < length bytes.now }
        requires begins { self.old.begins ≤ at }
        requires few { self.old.count ≤ self.old.begins }
        requires goes_on { IsOpenAt self.old.stage }
        ensures { ReadsTo self.old self.new bytes.now at result.0 result.1 }
    {
        let n = self.body_room().min((bytes.len() - at) as u64) as usize;
        if n > 0 {
            self.body_run(n);
            self.begins = at + n;
            return (at + n, Part::Body);
        }
        let part = self.byte(part_of(bytes, self.begins, at + 1), bytes[at]);
        self.pass(part, at + 1);
        (at + 1, part)
    }
}
