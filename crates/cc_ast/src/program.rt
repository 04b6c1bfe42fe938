// Scopes and programs.

use crate::place::Place;
use crate::shared::Shared;
use crate::tables::{ChunkInfo, Class, GlobalInfo, PropInfo, SiteDoc};
use crate::tree::Stmt;
use crate::units::Units;
use sqlite_items::Items;
use std::marker::Model;

/// A function, or a chunk's own statements. `names` counts the declared names that follow the
/// parameters in the frame's list; `own` tells whether it is a function expression with an own
/// name. `parent` is the scope in whose own statements the function stands.
#[derive(Drop)]
pub struct Scope {
    pub params: u32,
    pub names: u32,
    pub own: bool,
    pub body: Shared<Items<Stmt>>,
    pub parent: Option<u32>,
    pub doc: u32,
}

impl Model for Scope {
    ghost use Rattle.cc_ast.specs.Syntax.{Scope};
    ghost use Rattle.cc_ast.specs.Codes.{coded_scope};
    ghost use Rattle.cc_ast.specs.StmtBridge.{term_stmts};

    ghost Value = { Scope };

    ghost coded = { coded_scope };

    ghost view = { λ s. record { params = s.params; names = s.names; own = s.own; body = term_stmts s.body; parent = s.parent; doc = s.doc } };
}

/// The tables that a step may exchange beside the scopes.
#[derive(Drop)]
pub struct Heads {
    pub globals: Shared<Items<GlobalInfo>>,
    pub props: Shared<Items<PropInfo>>,
    pub classes: Shared<Items<Class>>,
    pub docs: Shared<Items<SiteDoc>>,
}

impl Model for Heads {
    ghost use Rattle.cc_ast.specs.Syntax.{Heads};
    ghost use Rattle.cc_ast.specs.Codes.{coded_heads};

    ghost Value = { Heads };

    ghost coded = { coded_heads };

    ghost view = { λ h. record { globals = h.globals; props = h.props; classes = h.classes; docs = h.docs } };
}

/// The names that a program is written with: one for each global by its number, and one for each
/// slot, which is a place in the lists of the enclosing frames together.
#[derive(Drop)]
pub struct Names {
    pub globals: Items<Units>,
    pub slots: Items<Units>,
}

impl Model for Names {
    ghost use Rattle.cc_ast.specs.Syntax.{Names};
    ghost use Rattle.cc_ast.specs.Codes.{coded_names};

    ghost Value = { Names };

    ghost coded = { coded_names };

    ghost view = { λ n. record { globals = n.globals; slots = n.slots } };
}

/// A whole program. The first scopes are the chunks'. Extern globals stand first, then the
/// built-in ones, then those of the chunks; entry 0 of `docs` says nothing.
#[derive(Drop)]
pub struct Program {
    pub scopes: Items<Scope>,
    pub chunks: Shared<Items<ChunkInfo>>,
    pub globals: Shared<Items<GlobalInfo>>,
    pub props: Shared<Items<PropInfo>>,
    pub kept: Shared<Items<Units>>,
    pub classes: Shared<Items<Class>>,
    pub places: Shared<Items<Place>>,
    pub docs: Shared<Items<SiteDoc>>,
}

impl Model for Program {
    ghost use Rattle.cc_ast.specs.Syntax.{Program};
    ghost use Rattle.cc_ast.specs.Codes.{coded_program};

    ghost Value = { Program };

    ghost coded = { coded_program };

    ghost view = { λ p. record { scopes = p.scopes; chunks = p.chunks; globals = p.globals; props = p.props; kept = p.kept; classes = p.classes; places = p.places; docs = p.docs } };
}
