//! The written meaning: what a program does under a script of the outside, and when two programs
//! do the same. The definitions stand in specs/, one subject a file, in the order of specs/Lib.antt;
//! `run` of specs/Script.antt is the whole of them, `Same` and `Agrees` of specs/Same.antt compare
//! two programs by it. The functions here state laws of these definitions, and do nothing.
#![tactic(auto)]

ghost use Rattle.std.specs.Prelude.{◌≡◌, ℕ, Some, slice_get};
ghost use Rattle.cc_ast.specs.Syntax.{Program};
ghost use Rattle.cc_ast.specs.declared.tables.Class.{Class};
ghost use Rattle.cc_meaning.specs.Same.{Same};
ghost use Rattle.cc_meaning.specs.Shapes.{tables_of};
ghost use Rattle.cc_meaning.specs.Store.{class_of_function, code_class_from};
ghost use Rattle.cc_meaning.specs.WellMade.{IsCode, WellMade};

/// A program does the same as itself.
pub fn same_is_reflexive()
    ensures { (P : Program) → Same P P }
{}

/// What does the same as a program that does the same as a third does the same as the third.
pub fn same_is_transitive()
    ensures { (P Q R : Program) → Same P Q → Same Q R → Same P R }
{}

/// In a well made program the class that a function belongs to doesn't depend on the order of the
/// classes: a class's own function is found as that class's, and code of a class as code of that one.
pub fn a_function_is_of_one_class()
    ensures own { (P : Program) → WellMade P → (a f : ℕ) → (c : Class) → slice_get P.classes a ≡ Some c → c.function ≡ Some f → class_of_function (tables_of P) f ≡ Some a }
    ensures code { (P : Program) → WellMade P → (a f : ℕ) → (c : Class) → slice_get P.classes a ≡ Some c → IsCode c f → code_class_from 0 P.classes f ≡ Some a }
{}
