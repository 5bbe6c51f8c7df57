//! Sites of a row that abut.

ghost use Rattle.std.specs.Prelude.{◌≡◌, nat_lt};

/// Sites of one row, from the site of the first number up to the one of the second, which isn't among them.
#[derive(Clone, Copy, PartialEq, Eq, Debug)]
pub struct Stretch {
    pub from: u64,
    pub end: u64,
}

impl Stretch {
    /// Whether it has a site.
    pub(crate) fn has_sites(&self) -> bool
        ensures { result ≡ nat_lt self.now.from self.now.end }
    {
        self.from < self.end
    }
}
