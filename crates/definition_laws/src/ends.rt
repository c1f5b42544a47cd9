// The laws of a request between the two ends of HTTP, and of the response to the bytes of a connection.
ghost use Rattle.http_ends.specs.Requests.{RequestIsRead};
ghost use Rattle.template_fill.specs.Responses.{LongerHistoriesAgree, MarksAreJoined, MarksArePadded, OneVersionIsMarked, ResponseAtGoesOn, ResponseBegins, ResponseGoesOn};

/// The request for an address, where it has at most `HEAD_LIMIT` bytes (`tpf_base`), is read as the
/// GET of its target, which does not close, and of exactly its length, whatever follows it; a proper
/// prefix of it is no request yet. It ends at its only empty line (RFC 9112, sections 2.2 and 3).
pub fn a_request_is_read()
    ensures { RequestIsRead }
{}

/// The response to the bytes of a connection only grows with them (RFC 9112, section 9.3): the
/// answers to the heads at the front stay, and after them, unless one closes, come those to the
/// bytes that were not read and the bytes that came (`goes_on`, `at` over one version). So the
/// response to more bytes begins with that to fewer (`begins`).
pub fn response_goes_on()
    ensures goes_on { ResponseGoesOn }
    ensures at { ResponseAtGoesOn }
    ensures begins { ResponseBegins }
{}

/// Marks of bytes and of what is behind them are marks of the whole, where no version falls between
/// them (`joined`). Marks of the first heads are padded to marks of all, by one version and, for a
/// request of a reload, out of memory; the response begins with the same answers, and no further
/// reload is answered (`padded`). A longer history changes neither the marks nor the response
/// (`longer`). Over one version each head has that version as its mark (`one`).
pub fn marks_go_on()
    ensures joined { MarksAreJoined }
    ensures padded { MarksArePadded }
    ensures longer { LongerHistoriesAgree }
    ensures one { OneVersionIsMarked }
{}
