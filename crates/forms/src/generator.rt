//! The numbers that choose the calls and bytes of a long comparison: the same in every run, and the
//! same as those of compare/driver/generator.rs.
ghost use Rattle.std.specs.Prelude.{◌≡◌, ◌<◌, ◌/◌};
ghost use Rattle.forms.specs.Generator.{drawn};

/// A linear congruential generator.
#[derive(Clone, Copy)]
pub struct Generator {
    /// The state, below 2^31.
    pub x: u64,
    ghost small: { x < 2147483648 },
}

impl Generator {
    /// The generator at its start, the state 1.
    pub fn new() -> Self
        ensures { result.x ≡ 1 }
    {
        Self { x: 1 }
    }

    /// The next number, below 2^15. It is the upper bits of the state, since the lower ones repeat
    /// soon.
    pub fn next(&mut self) -> u64
        ensures number { result ≡ drawn self.old.x / 65536 }
        ensures next { self.new.x ≡ drawn self.old.x }
    {
        self.x = (self.x * 1103515245 + 12345) % 2147483648;
        self.x / 65536
    }
}
