//! What is written of a program under its names reads back to it. The function here states the law, and
//! does nothing.
#![tactic(auto)]

ghost use Rattle.cc_written.specs.Laws.{ReadsBack};

/// The texts of a program that can be written are read in one way, and what is read resolves to a
/// program that is alike to it.
pub fn written_reads_back()
    ensures { ReadsBack }
{}
