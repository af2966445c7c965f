ghost use Rattle.std.specs.Prelude.{◌≡◌};
ghost use Rattle.interface.specs.Values.{number_of};

// What a stack cell, an argument or a result holds. A value keeps its sort wherever it is copied.
#[derive(Clone, Copy, Debug, PartialEq, Eq)]
pub enum Value {
    Number(i32),
    Exception(i32),
    SecurityException(i32),
}

impl Value {
    // The number to take where a number is needed: an exception counts as its own.
    pub fn number(self) -> i32
        ensures { result ≡ number_of self }
    {
        match self {
            Value::Number(n) | Value::Exception(n) | Value::SecurityException(n) => n,
        }
    }
}
