// What words ask for.

use cc_chunks::ChunkSpec;
use cc_text::Units;

/// The value that a definition gives to its variable.
#[derive(Drop)]
pub enum DefineValue {
    Truth(bool),
    Whole(i64),
    Text(Units),
}

/// A definition (Closure Compiler, `--define`): the variable's name, and its new value.
#[derive(Drop)]
pub struct Define {
    pub name: String,
    pub value: DefineValue,
}

/// A wrapper: what stands before its marker, and what stands behind it. The output takes the
/// marker's place.
#[derive(Drop)]
pub struct Wrapper {
    pub before: String,
    pub behind: String,
}

/// Where the output goes: to one file; to a file for each chunk, whose name is the prefix, the
/// chunk's name and `.js`, and whose wrapper stands at the chunk's number; or nowhere, where only
/// checks or generated input are asked for.
#[derive(Drop)]
pub enum Output {
    File {
        name: String,
        wrapper: Option<Wrapper>,
    },
    Chunks {
        prefix: String,
        wrappers: Vec<Option<Wrapper>>,
    },
    Nothing,
}

/// The input that is to be generated.
#[derive(Clone, Copy)]
pub struct Synthesis {
    pub seed: u64,
    pub size: u32,
}

/// What the words of a compilation ask for. Without `--chunk` there is one chunk, `main`, which
/// takes all sources. Of several definitions of one name the last counts, and all stand here,
/// since each is to be tested.
#[derive(Drop)]
pub struct Job {
    pub externs: Vec<String>,
    pub sources: Vec<String>,
    pub chunks: Vec<ChunkSpec>,
    pub output: Output,
    pub defines: Vec<Define>,
    pub generate_exports: bool,
    pub checks_only: bool,
    pub workers: u32,
    pub synthesis: Option<Synthesis>,
}

/// What the words of a replay ask for; chunks and definitions are those of `Job`. `bound` is the
/// greatest cost of the run.
#[derive(Drop)]
pub struct ReplayJob {
    pub externs: Vec<String>,
    pub sources: Vec<String>,
    pub chunks: Vec<ChunkSpec>,
    pub defines: Vec<Define>,
    pub generate_exports: bool,
    pub script: String,
    pub bound: u64,
    pub plain: bool,
}
