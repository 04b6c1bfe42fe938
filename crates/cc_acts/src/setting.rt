// What stays the same in a run.

ghost use Rattle.std.specs.Prelude.{◌≡◌, ◌-◌};
ghost use Rattle.cc_meaning.specs.Store.{without_chunk};

use crate::globals::{GlobalKind, built_in};
use cc_ast::program::Program;
use cc_ast::tables::GlobalInfo;

/// The program of a run, whether the run is plain, and how many globals are extern. The program of
/// a plain run has no flat paths.
#[derive(Clone, Copy)]
pub struct Setting<'a> {
    pub program: &'a Program,
    pub plain: bool,
    externs: usize,
    ghost counted: { externs ≡ without_chunk program.now.globals - 3 },
}

fn count_outer(globals: &[GlobalInfo]) -> usize
    ensures { result ≡ without_chunk globals.now }
{
    let mut count = 0;
    for global in globals {
        if global.chunk.is_none() {
            count += 1;
        }
    }
    count
}

impl<'a> Setting<'a> {
    ghost use Rattle.std.specs.Prelude.{◌≡◌, slice_get};
    ghost use Rattle.cc_meaning.specs.Shapes.{tables_of};
    ghost use Rattle.cc_meaning.specs.Store.{chunk_in, global_kind, outer_global};
    ghost use Rattle.cc_acts.specs.Globals.{kind_of_global};

    pub fn new(program: &'a Program, plain: bool) -> Setting<'a>
        ensures program { result.program.now ≡ program.now }
        ensures plain { result.plain ≡ plain }
    {
        let externs = count_outer(program.globals.get().as_slice()).saturating_sub(3);
        Setting {
            program,
            plain,
            externs,
        }
    }

    // A global that no chunk declares.
    fn outer(&self, global: u32) -> GlobalKind
        ensures { kind_of_global result ≡ outer_global self.now.externs global }
    {
        let number = global as usize;
        if number < self.externs {
            return GlobalKind::Extern;
        }
        GlobalKind::BuiltIn(built_in(number - self.externs))
    }

    #[tactic(auto, unfolding(cc_meaning::specs::Store::chunk_in))]
    fn chunk_of(&self, global: u32) -> Option<u32>
        ensures { result ≡ chunk_in (slice_get self.now.program.now.globals global) }
    {
        let program: &Program = self.program;
        match program.globals.get().get(global as usize) {
            Some(info) => info.chunk,
            None => None,
        }
    }

    /// What a global is.
    #[tactic(auto, unfolding(cc_meaning::specs::Store::global_kind, cc_meaning::specs::Store::global_by))]
    pub fn global_kind(&self, global: u32) -> GlobalKind
        ensures { kind_of_global result ≡ global_kind (tables_of self.now.program.now) global }
    {
        match self.chunk_of(global) {
            Some(chunk) => GlobalKind::Chunk(chunk),
            None => self.outer(global),
        }
    }
}
