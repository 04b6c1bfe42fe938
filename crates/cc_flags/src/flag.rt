// The flags.

ghost use Rattle.std.specs.Prelude.{◌≡◌};
ghost use Rattle.cc_flags.specs.Flags.{row_of, flag_by_name, known_flag, knows, needs_value, is_once};

/// The calls that read words: those that compile, and the one that replays.
#[derive(Clone, Copy, PartialEq, Eq)]
pub(crate) enum Call {
    Compile,
    Replay,
}

/// A flag of a command line (specs/Flags.antt has their table).
#[derive(Clone, Copy, PartialEq, Eq)]
pub(crate) enum Flag {
    Js,
    Externs,
    JsOutputFile,
    Chunk,
    ChunkOutputPathPrefix,
    ChunkWrapper,
    OutputWrapper,
    Define,
    GenerateExports,
    ChecksOnly,
    Plain,
    CompilationLevel,
    Workers,
    Synthesize,
    Script,
    Bound,
}

/// What the value of a flag may be (specs/Values.antt).
#[derive(Clone, Copy, PartialEq, Eq)]
pub(crate) enum Form {
    AnyText,
    Chunk,
    ChunkWrapper,
    OutputWrapper,
    Define,
    Switch,
    Level,
    Workers,
    Synthesis,
    Bound,
}

impl Flag {
    /// The flag of a name, which stands without `--`.
    fn by_name(name: &str) -> Option<Flag>
        ensures { result ≡ flag_by_name name.now }
    {
        match name {
            "js" => Some(Flag::Js),
            "externs" => Some(Flag::Externs),
            "js_output_file" => Some(Flag::JsOutputFile),
            "chunk" => Some(Flag::Chunk),
            "chunk_output_path_prefix" => Some(Flag::ChunkOutputPathPrefix),
            "chunk_wrapper" => Some(Flag::ChunkWrapper),
            "output_wrapper" => Some(Flag::OutputWrapper),
            "define" => Some(Flag::Define),
            "generate_exports" => Some(Flag::GenerateExports),
            "checks_only" => Some(Flag::ChecksOnly),
            "plain" => Some(Flag::Plain),
            "compilation_level" => Some(Flag::CompilationLevel),
            "workers" => Some(Flag::Workers),
            "synthesize" => Some(Flag::Synthesize),
            "script" => Some(Flag::Script),
            "bound" => Some(Flag::Bound),
            _ => None,
        }
    }

    fn is_known_to(self, call: Call) -> bool
        ensures { result ≡ knows call (row_of self).callers }
    {
        match self {
            Flag::Js | Flag::Externs | Flag::Chunk | Flag::Define | Flag::GenerateExports => true,
            Flag::Script | Flag::Bound | Flag::Plain => call == Call::Replay,
            _ => call == Call::Compile,
        }
    }

    /// What its value may be.
    pub(crate) fn form(self) -> Form
        ensures { result ≡ (row_of self).form }
    {
        match self {
            Flag::Js
            | Flag::Externs
            | Flag::JsOutputFile
            | Flag::ChunkOutputPathPrefix
            | Flag::Script => Form::AnyText,
            Flag::Chunk => Form::Chunk,
            Flag::ChunkWrapper => Form::ChunkWrapper,
            Flag::OutputWrapper => Form::OutputWrapper,
            Flag::Define => Form::Define,
            Flag::GenerateExports | Flag::ChecksOnly | Flag::Plain => Form::Switch,
            Flag::CompilationLevel => Form::Level,
            Flag::Workers => Form::Workers,
            Flag::Synthesize => Form::Synthesis,
            Flag::Bound => Form::Bound,
        }
    }

    /// Whether it is no switch.
    pub(crate) fn needs_value(self) -> bool
        ensures { result ≡ needs_value self }
    {
        self.form() != Form::Switch
    }

    /// Whether it may be given once alone.
    pub(crate) fn is_once(self) -> bool
        ensures { result ≡ is_once self }
    {
        !matches!(
            self,
            Flag::Js | Flag::Externs | Flag::Chunk | Flag::ChunkWrapper | Flag::Define
        )
    }
}

/// The flag of a name, where the call knows it.
pub(crate) fn known_flag(name: &str, call: Call) -> Option<Flag>
    ensures { result ≡ known_flag call name.now }
{
    let flag = Flag::by_name(name)?;
    if flag.is_known_to(call) {
        Some(flag)
    } else {
        None
    }
}
