// What tags give together.

ghost use Rattle.std.specs.Prelude.{◌≡◌, ◌++◌, ◌∷◌, [], List, IfOk, OnOk, map};
ghost use Rattle.cc_jsdoc.specs.declared.tag.Tag.{Tag};
ghost use Rattle.cc_jsdoc.specs.Docs as docs;
ghost use Rattle.cc_jsdoc.specs.Collecting as collecting;

use crate::doc::{Doc, DocKind, Param};
use crate::tag::Tag;
use crate::types::TypeExpr;
use cc_ast::units::Units;
use indexmap::IndexMap;
use sqlite_items::Items;
use std::alloc::{AllocError, Global};

/// The types of parameters by their names.
type Params = IndexMap<Vec<u16>, TypeExpr>;

// What no tags give.
fn plain(alloc: Global) -> Doc
    ensures { result ≡ docs.doc_of [] }
{
    Doc {
        kind: DocKind::Plain,
        extends: None,
        implements: Items::new(alloc),
        params: Items::new(alloc),
        result: None,
        value: None,
        receiver: None,
        constant: false,
        define: false,
        export: false,
        nocollapse: false,
        licence: false,
    }
}

// What tags give: the parameters, and all else.
#[derive(Drop)]
struct Collected {
    doc: Doc,
    params: Params,
}

// One parameter more.
fn insert(params: &mut Params, param: Param) -> Result<(), AllocError>
    ensures { OnOk result (map collecting.param_shown params.new.entries
        ≡ docs.with_param (map collecting.param_shown params.old.entries) param) }
{
    params.insert(param.name.list, param.expr)?;
    Ok(())
}

// What one tag more gives.
fn add(collected: &mut Collected, tag: Tag) -> Result<(), AllocError>
    ensures { OnOk result ((tags : List Tag) → collecting.IsCollected tags collected.old
        → collecting.IsCollected (tags ++ tag ∷ []) collected.new) }
{
    let doc = &mut collected.doc;
    match tag {
        Tag::Constructor => doc.kind = DocKind::Constructor,
        Tag::Interface => doc.kind = DocKind::Interface,
        Tag::Enum(expr) => {
            doc.kind = DocKind::Enum;
            doc.value = Some(expr);
        }
        Tag::Typedef(expr) => {
            doc.kind = DocKind::Typedef;
            doc.value = Some(expr);
        }
        Tag::Extends(name) => doc.extends = Some(name),
        Tag::Implements(name) => doc.implements.push(name)?,
        Tag::Param(param) => insert(&mut collected.params, param)?,
        Tag::Return(expr) => doc.result = Some(expr),
        Tag::Type(expr) => doc.value = Some(expr),
        Tag::This(expr) => doc.receiver = Some(expr),
        Tag::Const(expr) => {
            doc.constant = true;
            doc.value = expr.or(doc.value.take());
        }
        Tag::Define(expr) => {
            doc.define = true;
            doc.value = expr.or(doc.value.take());
        }
        Tag::Export => doc.export = true,
        Tag::NoCollapse => doc.nocollapse = true,
        Tag::Licence => doc.licence = true,
    }
    Ok(())
}

// The parameters in their order.
fn listed(alloc: Global, params: Params) -> Result<Items<Param>, AllocError>
    ensures { IfOk result (λ list. list ≡ map collecting.param_shown params.entries) }
{
    let mut list = Items::new(alloc);
    for (name, expr) in params {
        let name = Units { list: name };
        list.push(Param { name, expr })?;
    }
    Ok(list)
}

/// What tags give together.
pub(crate) fn doc_of(alloc: Global, tags: Vec<Tag>) -> Result<Doc, AllocError>
    ensures { IfOk result (λ doc. doc ≡ docs.doc_of tags.items) }
{
    let mut collected = Collected {
        doc: plain(alloc),
        params: IndexMap::new(alloc),
    };
    for tag in tags {
        add(&mut collected, tag)?;
    }
    let Collected { doc, params } = collected;
    let params = listed(alloc, params)?;
    Ok(Doc { params, ..doc })
}
