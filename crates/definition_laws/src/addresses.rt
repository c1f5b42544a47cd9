// The laws of explicit forms, addresses, rows and histories.
ghost use Rattle.template_fill.specs.Explicit.{ReadsBack, FormsAreText};
ghost use Rattle.template_fill.specs.Answers.{ReadsAddress};
ghost use Rattle.template_fill.specs.Rows.{ReadsRows};
ghost use Rattle.template_fill.specs.Configurations.{LastVersionIsServed, VersionsFollow, VersionsStay};

/// The slot of the explicit form of an IRI or a literal is that term, fixed.
pub fn explicit_forms_read_back()
    ensures { ReadsBack }
{}

/// The explicit form of a valid term is text, so it can be written into an address.
pub fn explicit_forms_are_text()
    ensures { FormsAreText }
{}

/// The target of the address of a page is on the path of the base and asks for the slots and the
/// number of that page, where no slot has a blank node.
pub fn address_reads_back()
    ensures { ReadsAddress }
{}

/// The value of a row is read as that row, where no place is a blank node.
pub fn rows_read_back()
    ensures { ReadsRows }
{}

/// The last data set of a history has the number of its version. One data set is version 1, and a
/// data set that is added is the next version. In a longer history each version stays the same.
pub fn versions_are_numbered()
    ensures last { LastVersionIsServed }
    ensures follow { VersionsFollow }
    ensures stay { VersionsStay }
{}
