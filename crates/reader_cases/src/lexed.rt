// What is done with the tokens of a text.

ghost use Rattle.std.specs.Prelude.{◌≤◌, length};
ghost use Rattle.cc_stmt.specs.ReadList.{IsLexed};

use crate::lists::{push_file, push_list};
use crate::names::push_names;
use crate::page::Page;
use crate::refusal::push_refusal;
use crate::token::push_tokens;
use cc_lexer::token::Tokens;
use cc_lexer::tokens;
use std::alloc::Global;

/// The tokens are listed, read as a name and parameters, or as statements, or as a file.
#[derive(Clone, Copy)]
pub(crate) enum Use {
    Tokens,
    Names,
    List,
    File,
}

fn push_used(alloc: Global, page: &mut Page, used: Use, tokens: &Tokens<'_>)
    requires { IsLexed tokens.now }
{
    match used {
        Use::Tokens => push_tokens(alloc, page, tokens),
        Use::Names => push_names(alloc, page, tokens),
        Use::List => push_list(alloc, page, tokens),
        Use::File => push_file(alloc, page, tokens),
    }
}

/// What is done with the tokens of these bytes. It is true, as no bytes are wrong for it.
pub(crate) fn push_lexed(alloc: Global, page: &mut Page, used: Use, bytes: &[u8]) -> bool
    requires { length bytes.now ≤ 16777216 }
{
    match tokens(alloc, bytes, 7) {
        Ok(found) => push_used(alloc, page, used, &found),
        Err(refusal) => {
            page.row();
            push_refusal(page, &refusal);
        }
    }
    true
}
