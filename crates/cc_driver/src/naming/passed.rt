// The names that no global of a chunk may get.
ghost use Rattle.std.specs.Prelude.{◌≡◌, List, ℕ, IfOk, OnOk, [], ◌++◌, ◌||◌, map};
ghost use Rattle.std.specs.Str.{bytes_eq};
ghost use Rattle.cc_driver.specs.Names.{is_in, reserved_words, strict_words, special_names};
ghost use Rattle.cc_driver.specs.Naming.{if_other, other_names};
ghost use Rattle.cc_driver.specs.NamingSteps.{has_name};

use cc_ast::tables::GlobalInfo;
use indexmap::IndexSet;
use std::alloc::{AllocError, Global};

/// Words that are no names of variables (ECMA-262 5.1, 7.6.1 and 7.8, with the words of strict
/// code), and names with a meaning of their own.
const WORDS: [&str; 50] = [
    "break",
    "case",
    "catch",
    "continue",
    "debugger",
    "default",
    "delete",
    "do",
    "else",
    "finally",
    "for",
    "function",
    "if",
    "in",
    "instanceof",
    "new",
    "return",
    "switch",
    "this",
    "throw",
    "try",
    "typeof",
    "var",
    "void",
    "while",
    "with",
    "class",
    "const",
    "enum",
    "export",
    "extends",
    "import",
    "super",
    "null",
    "true",
    "false",
    "let",
    "static",
    "yield",
    "implements",
    "interface",
    "package",
    "private",
    "protected",
    "public",
    "eval",
    "arguments",
    "undefined",
    "NaN",
    "Infinity",
];

/// These words, and the names of the extern and the built-in globals.
pub fn passed_names(alloc: Global, globals: &[GlobalInfo]) -> Result<IndexSet<Vec<u16>>, AllocError>
    ensures { IfOk result (λ passed. (name : List ℕ) → has_name passed.keys name
        ≡ is_in name (reserved_words ++ strict_words ++ special_names ++ other_names globals.now)) }
{
    let mut passed = IndexSet::new(alloc);
    let Ok(()) = add_words(alloc, &mut passed, &WORDS) else {
        return Err(AllocError);
    };
    let Ok(()) = add_names(alloc, &mut passed, globals) else {
        return Err(AllocError);
    };
    Ok(passed)
}

fn add_words(
    alloc: Global,
    passed: &mut IndexSet<Vec<u16>>,
    words: &[&str],
) -> Result<(), AllocError>
    ensures { OnOk result ((name : List ℕ) → has_name passed.new.keys name
        ≡ (has_name passed.old.keys name || is_in name (map (λ word. word.now) words.now))) }
{
    for word in words {
        let name = word_units(alloc, word.as_bytes())?;
        add_name(passed, name)?;
    }
    Ok(())
}

fn word_units(alloc: Global, word: &[u8]) -> Result<Vec<u16>, AllocError>
    ensures { IfOk result (λ name. name.items ≡ word.now) }
{
    let mut name = Vec::new(alloc);
    for c in word {
        name.push(u16::from(*c))?;
    }
    Ok(name)
}

fn add_names(
    alloc: Global,
    passed: &mut IndexSet<Vec<u16>>,
    globals: &[GlobalInfo],
) -> Result<(), AllocError>
    ensures { OnOk result ((name : List ℕ) → has_name passed.new.keys name
        ≡ (has_name passed.old.keys name || is_in name (other_names globals.now))) }
{
    for global in globals {
        add_global(alloc, passed, global)?;
    }
    Ok(())
}

fn add_global(
    alloc: Global,
    passed: &mut IndexSet<Vec<u16>>,
    global: &GlobalInfo,
) -> Result<(), AllocError>
    ensures { OnOk result ((name : List ℕ) → has_name passed.new.keys name
        ≡ (has_name passed.old.keys name || is_in name (if_other global.now.chunk global.now.name []))) }
{
    match global.chunk {
        Some(_) => Ok(()),
        None => add_name(passed, Vec::from_slice(alloc, global.name.list.as_slice())?),
    }
}

fn add_name(passed: &mut IndexSet<Vec<u16>>, added: Vec<u16>) -> Result<(), AllocError>
    ensures { OnOk result ((name : List ℕ) → has_name passed.new.keys name
        ≡ (has_name passed.old.keys name || bytes_eq name added.items)) }
{
    passed.insert(added)?;
    Ok(())
}
