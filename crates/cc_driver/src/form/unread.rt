// Why a file is not read.

use std::alloc::AllocError;

/// Why a text is not read: it is not of the form, or memory is wanting.
#[derive(Clone, Copy)]
pub(crate) enum Unread {
    Form,
    Memory(AllocError),
}

impl From<AllocError> for Unread {
    ghost use Rattle.std.specs.Prelude.{◌≡◌};
    ghost use Rattle.cc_driver.specs.declared.form.unread.Unread.TheVariants.{Memory};

    ghost from_gives = { λ error unread. unread ≡ Memory error };

    fn from(error: AllocError) -> Unread {
        Unread::Memory(error)
    }
}
