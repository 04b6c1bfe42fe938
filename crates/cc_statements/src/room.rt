// Whether a tree may be one higher.

ghost use Rattle.std.specs.Prelude.{◌≡◌, ◌<◌, true, false, nat_lt, OnOk, MatchResult};
ghost use Rattle.cc_grammar.specs.Reading.{look_token};

use crate::grammar::Grammar;
use cc_cursor::cursor::Cursor;
use cc_cursor::error::{Cause, ReadError};

impl<F, G> Grammar<F, G> {
    /// Whether a tree that is higher by one than this may stand here.
    pub(crate) fn room(&self, cursor: &Cursor<'_>, height: usize) -> Result<(), ReadError>
        ensures is { MatchResult result (λ _. nat_lt height self.now.limits.depth ≡ true)
            (λ e. (nat_lt height self.now.limits.depth ≡ false) × (e ≡ ReadError.Fault (record { cause = Cause.Depth; place = (look_token cursor.now).place }))) }
        ensures low { OnOk result (height < self.now.limits.depth) }
        ensures small { self.now.limits.depth < 65536 }
    {
        if height < usize::from(self.limits.depth) {
            Ok(())
        } else {
            Err(ReadError::Fault(cursor.stop(Cause::Depth)))
        }
    }
}
