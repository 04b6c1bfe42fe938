// The classes of which an object was made.

ghost use Rattle.std.specs.Prelude.{◌≡◌, nat_eq};
ghost use Rattle.std.specs.List.{list_any};

use crate::heap::Heap;

impl Heap {
    /// Whether an object of the class with this place in a table was made. The place may be past
    /// every number of a class.
    pub fn has_constructed(&self, class: usize) -> bool
        ensures { result ≡ list_any (λ d. nat_eq d class) self.now.constructed }
    {
        self.constructed.iter().any(|made| *made as usize == class)
    }
}
