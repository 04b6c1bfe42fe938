// What the words of a line say, by their places. The first is the line's name, at place 0.

/// The word of what isn't there, and of a flag that isn't set.
const NOTHING: &str = "-";

/// A number below 2^32.
pub fn number(word: &str) -> Option<u32> {
    word.parse::<u32>().ok()
}

/// A number, or two with a colon between them; the second is else 0.
pub fn pair(word: &str) -> Option<(u32, u32)> {
    let (first, second) = match word.split_once(':') {
        Some(both) => both,
        None => (word, "0"),
    };
    match (number(first), number(second)) {
        (Some(first), Some(second)) => Some((first, second)),
        _ => None,
    }
}

/// Whether a word is a whole number that is spelled as JavaScript spells it: without a sign but a
/// minus, and without a zero before other digits.
pub fn is_spelled_whole(word: &str) -> bool {
    let digits = match word.strip_prefix('-') {
        Some(digits) => digits,
        None => word,
    };
    match word.parse::<i64>() {
        Ok(0) => word == "0",
        Ok(_) => !digits.starts_with('0') && !digits.starts_with('+'),
        Err(_) => false,
    }
}

pub fn word_at<'a>(words: &[&'a str], at: usize) -> Option<&'a str> {
    match words.get(at) {
        Some(word) => Some(*word),
        None => None,
    }
}

pub fn number_at(words: &[&str], at: usize) -> Option<u32> {
    match words.get(at) {
        Some(word) => number(word),
        None => None,
    }
}

/// The number of an object, a frame or a place.
pub fn place_at(words: &[&str], at: usize) -> Option<usize> {
    match words.get(at) {
        Some(word) => word.parse::<usize>().ok(),
        None => None,
    }
}

/// Whether something isn't there.
pub fn is_nothing_at(words: &[&str], at: usize) -> bool {
    match words.get(at) {
        Some(word) => *word == NOTHING,
        None => false,
    }
}

/// A number that may not be there.
pub fn optional_number_at(words: &[&str], at: usize) -> Option<Option<u32>> {
    if is_nothing_at(words, at) {
        return Some(None);
    }
    match number_at(words, at) {
        Some(number) => Some(Some(number)),
        None => None,
    }
}

/// The number of an object or a frame that may not be there.
pub fn optional_place_at(words: &[&str], at: usize) -> Option<Option<usize>> {
    if is_nothing_at(words, at) {
        return Some(None);
    }
    match place_at(words, at) {
        Some(place) => Some(Some(place)),
        None => None,
    }
}

/// A flag, which is set where its name stands.
pub fn flag_at(words: &[&str], at: usize, name: &str) -> Option<bool> {
    if is_nothing_at(words, at) {
        return Some(false);
    }
    match words.get(at) {
        Some(word) if *word == name => Some(true),
        _ => None,
    }
}
