// A law of feeds.
ghost use Rattle.quad_feed.specs.Laws.{BeginsWithText};

/// A feed before its first piece reads what comes as the whole text is read.
pub fn a_feed_begins_with_the_text()
    ensures { BeginsWithText }
{}
