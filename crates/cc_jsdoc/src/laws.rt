// Laws of annotations.

ghost use Rattle.cc_jsdoc.specs.Laws as laws;

/// A text is at most one type: its alternatives are determined, however it is derived.
pub fn one_type()
    ensures { laws.IsOneType }
{}

/// A comment says one thing.
pub fn one_doc()
    ensures { laws.IsOneDoc }
{}
