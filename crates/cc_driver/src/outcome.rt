// What a compilation answers.
ghost use Rattle.std.specs.Prelude.{◌≡◌};
ghost use Rattle.cc_driver.specs.Status.{status_of};

use std::alloc::AllocError;

/// How a compilation ended. `Read` and `Write` have the number of the file: externs come first and
/// sources next in the order of the words, and outputs are counted from 0 on their own. `Unbuilt`
/// says what isn't of the form that is compiled so far: 0 the words, 1 the externs, 2 the source.
#[derive(Clone, Copy)]
pub enum Outcome {
    Done,
    Read(usize),
    Write(usize),
    Unbuilt(u32),
    Memory,
}

impl From<AllocError> for Outcome {
    ghost use Rattle.std.specs.Prelude.{◌≡◌};
    ghost use Rattle.cc_driver.specs.declared.outcome.Outcome.TheVariants.{Memory};

    ghost from_gives = { λ _ outcome. outcome ≡ Memory };

    fn from(_error: AllocError) -> Outcome {
        Outcome::Memory
    }
}

impl Outcome {
    /// The exit status of the programs.
    pub fn status(self) -> u8
        ensures { result ≡ status_of self }
    {
        match self {
            Outcome::Done => 0,
            Outcome::Read(_) => 4,
            Outcome::Write(_) => 5,
            Outcome::Memory => 14,
            Outcome::Unbuilt(_) => 64,
        }
    }
}
