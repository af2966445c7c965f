// Amounts as people write them.
use std::fmt;

// A number with its noun, which is given in the singular.
#[derive(Drop)]
pub(crate) struct Amount(pub(crate) usize, pub(crate) &'static str);

impl fmt::Display for Amount {
    ghost use Rattle.std.specs.Prelude.{[], ◌∷◌, ◌++◌, ◌==◌, if◌then◌else◌, Some, codes, decimal};

    ghost output = { λ a. Some
        (decimal a.0 ++ (32 ∷ (a.1.now ++ (if a.0 == 1 then [] else codes "s")))) };

    fn fmt<W: fmt::Write>(&self, f: &mut fmt::Formatter<W>) -> fmt::Result {
        let count = self.0;
        let noun = self.1;
        let ending = if count == 1 { "" } else { "s" };
        write!(f, "{count} {noun}{ending}")
    }
}
