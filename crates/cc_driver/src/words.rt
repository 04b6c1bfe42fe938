// The words of a command line.
ghost use Rattle.std.specs.Prelude.{◌≡◌, ◌↔◌, IsTrue, codes, ℕ, List, map, string_bytes, MatchOption};
ghost use Rattle.cc_driver.specs.Compile.{IsJob};

/// The files that the words name.
#[derive(Clone, Copy)]
pub struct Job<'a> {
    pub externs: &'a str,
    pub source: &'a str,
    pub output: &'a str,
}

/// The job of exactly the words `--externs E --js S --js_output_file O`.
pub fn job_of<'a>(words: &'a [String]) -> Option<Job<'a>>
    ensures { MatchOption result ((externs source output : List ℕ) → IsJob (map string_bytes words.now) externs source output → ⊥) (λ job. IsJob (map string_bytes words.now) job.externs.now job.source.now job.output.now) }
{
    match words {
        [
            externs_flag,
            externs,
            source_flag,
            source,
            output_flag,
            output,
        ] if are_flags(externs_flag, source_flag, output_flag) => Some(Job {
            externs: externs.as_str(),
            source: source.as_str(),
            output: output.as_str(),
        }),
        _ => None,
    }
}

fn are_flags(externs: &String, source: &String, output: &String) -> bool
    ensures { IsTrue result ↔ ((string_bytes externs.now ≡ codes "--externs") × (string_bytes source.now ≡ codes "--js") × (string_bytes output.now ≡ codes "--js_output_file")) }
{
    externs.as_str() == "--externs"
        && source.as_str() == "--js"
        && output.as_str() == "--js_output_file"
}
