//! The laws of the reading function. The functions here state them, and do nothing.

ghost use Rattle.cc_grammar.specs.Laws.{IsSound, IsOne, IsComplete, IsSmall, IsFirstFault, HasNoFault, IsWhole, HasText};

/// With justified insertions a list of tokens derives one tree.
pub fn one_tree()
    ensures { IsOne }
{}

/// A tree has at most four expressions, statements and declarators for each token of its list.
pub fn trees_are_small()
    ensures { IsSmall }
{}

/// What is read is derived from exactly the tokens, with justified insertions, within the depth.
pub fn reading_is_sound()
    ensures { IsSound }
{}

/// What is derived within the depth, with justified insertions, is read, whatever the turns, if there
/// are more than the tokens.
pub fn reading_is_complete()
    ensures { IsComplete }
{}

/// Where reading stops the fault is at the token of its place, and it is the first: no refused
/// construct, no fault of depth and none of syntax is at an earlier token, and none of a lower rank
/// at this one. Where the turns are more than the tokens, it never stops for them.
pub fn faults_are_first()
    ensures { IsFirstFault }
{}

/// What is derived within the depth has no fault.
pub fn derived_lists_have_no_fault()
    ensures { HasNoFault }
{}

/// Where the tokens of a text are read, none of them is left.
pub fn reading_ends()
    ensures { IsWhole }
{}

/// The tokens that a text has are the tokens of a text in the sense of these laws: the last of them,
/// and no other, is the end or the place where no token begins.
pub fn a_text_has_tokens()
    ensures { HasText }
{}
