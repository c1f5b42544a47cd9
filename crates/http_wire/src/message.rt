// What is read from a request, and what stands in the head of an answer.
use tpf_base::{Bytes, Text};

/// The method of a request (RFC 9110, section 9.3).
#[derive(Clone, Copy)]
pub enum Asked {
    /// The method `GET`.
    Get,
    /// The method `HEAD`: the answer has no body.
    Head,
    /// Any other method.
    Other,
}

/// What a server takes from the head of a request.
#[derive(Drop)]
pub struct RequestHead {
    /// What is asked for the target.
    pub method: Asked,
    /// The path and the query, in the origin form of RFC 9112, section 3.2.1.
    pub target: Text,
    /// Whether the connection ends with the answer to this request: it is of HTTP/1.0, a Connection
    /// field has the word `close`, or it announces a body, which is not read (RFC 9112, sections 6.3
    /// and 9.6).
    pub closes: bool,
}

/// What stands next in the bytes of a connection.
#[derive(Drop)]
pub enum NextHead {
    /// No further whole head, and the limit is not reached.
    More,
    /// The next request.
    Head(RequestHead),
    /// The status with which the connection ends: 431 for a head with more field lines than
    /// `MOST_FIELDS` of `tpf_base` (64), and for one that together with the empty lines before it has
    /// more bytes than `HEAD_LIMIT` (4194304); 400 for what is no head of HTTP/1.0 or 1.1, a head of
    /// 1.1 without exactly one Host field, and a target that begins with neither `/` nor `http://`, or has a `#`
    /// or a byte that is no visible ASCII (RFC 9110, section 15.5.1; RFC 9112, section 3.2; RFC 6585,
    /// section 5).
    Bad(u16),
}

/// A field of the head of an answer.
#[derive(Drop)]
pub struct Field {
    /// The name, as it is written.
    pub name: Text,
    /// The value, with no blanks around it.
    pub value: Text,
}

/// A reply with status 200 whose body is N-Quads text.
#[derive(Drop)]
pub struct Reply {
    /// The body, without what frames it in chunks; at most as many bytes as the limit of the feed.
    pub body: Bytes,
    /// Whether the connection can be used for a further request (RFC 9112, section 9.3).
    pub keeps: bool,
}

/// What a reply feed answers.
#[derive(Clone, Copy, PartialEq, Eq)]
pub enum Fed {
    /// The reply goes on.
    More,
    /// The reply is whole; so many bytes of this piece belong to it.
    Done { used: usize },
    /// The reply is refused.
    Bad(ReplyFault),
}

/// Why a reply is refused.
#[derive(Clone, Copy, Debug, PartialEq, Eq)]
pub enum ReplyFault {
    /// What is no head of a reply, or a head with more field lines than `MOST_FIELDS` of `tpf_base`
    /// (64).
    Head,
    /// A status other than 200 and those of 100 to 199, which are passed over.
    Status(u16),
    /// Not exactly one Content-Type, or one that is not `application/n-quads`, in any case and with
    /// any parameters (RFC 9110, section 8.3).
    MediaType,
    /// A Content-Encoding other than `identity` (RFC 9110, section 8.4).
    Coding,
    /// What is not taken as a length or as chunks: a Transfer-Encoding other than one `chunked`,
    /// Content-Lengths other than the same digits, a chunk line other than one hexadecimal digit to
    /// `MOST_CHUNK_DIGITS` of `tpf_base` (15), blanks, and nothing or an extension, one of more bytes
    /// than `LINE_LIMIT` (1024), and a chunk without CR LF behind it (RFC 9112, sections 6 and 7).
    Framing,
    /// Heads together of more bytes than `HEADS_LIMIT` of `tpf_base` (65536), a body longer than the
    /// limit, lines behind the last chunk of more bytes than `HEADS_LIMIT`, or chunk lines and line
    /// ends behind chunks of more bytes than `PADDING_LIMIT` (1048576) and eight for each byte of the
    /// body so far.
    TooLong,
}
