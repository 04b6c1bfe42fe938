// Texts of words, and what stands in them.

ghost use Rattle.std.specs.Prelude.{◌≡◌, ◌<◌, ◌++◌, MatchOption};
ghost use Rattle.std.specs.Option.{option_copied};
ghost use Rattle.cc_flags.specs.Texts as texts;

/// What stands before the first `mark`, or the whole text where there is none, and what stands
/// behind it.
pub(crate) fn split_at_first(text: &str, mark: char) -> (&str, Option<&str>)
    requires { mark < 128 }
    ensures before { result.0.now ≡ texts.before mark text.now }
    ensures behind { option_copied result.1 ≡ texts.behind mark text.now }
{
    match text.split_once(mark) {
        Some((before, behind)) => (before, Some(behind)),
        None => (text, None),
    }
}

/// The texts on both sides of a marker, where the marker stands at one place alone.
pub(crate) fn around<'a>(text: &'a str, marker: &str) -> Option<(&'a str, &'a str)>
    ensures { MatchOption result (¬ (texts.places marker.now text.now ≡ 1))
        (λ sides. (texts.places marker.now text.now ≡ 1) × (text.now ≡ sides.0.now ++ (marker.now ++ sides.1.now))) }
{
    if places(text, marker) == 1 {
        text.split_once(marker)
    } else {
        None
    }
}

/// At how many places of a text the marker stands.
fn places(text: &str, marker: &str) -> usize
    ensures { result ≡ texts.places marker.now text.now }
{
    let bytes = text.as_bytes();
    let mut count = 0;
    for i in 0..bytes.len() {
        if bytes[i..].starts_with(marker.as_bytes()) {
            count += 1;
        }
    }
    count
}
