// Laws of the definitions: what is read does not depend on the cuts, is what a feed gives, and wants only so many bytes.
ghost use Rattle.http_wire.specs.Laws.{PlaceIsCut, ReadingIsCut, ReadingIsOver, WhatIsReadIsGiven, WantsFewBytes, WantsBoundedBytes};

/// What is read of a reply does not depend on how its bytes are cut.
pub fn cuts_do_not_matter()
    ensures place { PlaceIsCut }
    ensures reading { ReadingIsCut }
    ensures stays { ReadingIsOver }
{}

/// What is read of all bytes of a reply is what a feed gives that took them, over any cuts: where a
/// whole reply is read, its length is at most that of the bytes, and `take` gives exactly its body;
/// where a fault is read, the feed is refused with it; else the reply goes on.
pub fn what_is_read_is_given()
    ensures { WhatIsReadIsGiven }
{}

/// A reply wants more only of a bounded number of bytes: for small limits `few` says less of them,
/// for large ones `most`.
pub fn a_reply_is_bounded()
    ensures few { WantsFewBytes }
    ensures most { WantsBoundedBytes }
{}
