// What came of reading a text.

ghost use Rattle.std.specs.Prelude.{◌≡◌};
ghost use Rattle.row_text.specs.Readings.{is_spelled};

/// What a text reads as: nothing, something with a number that is too big to be kept, or a value.
#[derive(Clone, Copy, Debug, PartialEq, Eq)]
pub enum Reading<T> {
    Unspelled,
    TooBig,
    Value(T),
}

impl<T> Reading<T> {
    /// Whether the text reads as anything.
    pub fn is_spelled(&self) -> bool
        ensures { result ≡ is_spelled self.now }
    {
        match self {
            Reading::Unspelled => false,
            Reading::TooBig => true,
            Reading::Value(_) => true,
        }
    }
}
