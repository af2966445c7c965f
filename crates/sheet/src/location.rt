ghost use Rattle.std.specs.Prelude.{◌≡◌};

// A location of the sheet as it was handed in: the number of an instruction within its method.
// Locations after weaving have a type of their own, so that one is never taken for the other: a model that shows the bare
// number would make the two one type to every definition, so contracts see the record.
#[derive(Clone, Copy, Debug, PartialEq, Eq)]
pub struct PlainLocation {
    number: u16,
}

impl PlainLocation {
    pub fn new(number: u16) -> PlainLocation
        ensures { result ≡ record { number = number } }
    {
        PlainLocation { number }
    }

    pub fn number(self) -> u16
        ensures { result ≡ self.number }
    {
        self.number
    }
}
