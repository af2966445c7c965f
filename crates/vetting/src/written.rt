// Instructions as people write them.
use sheet::op::OperandUse;
use sheet::records::ReadInstruction;
use std::fmt;

// An instruction with its operand. An operand that is not used is left out where it is 0, as it
// must be.
#[derive(Drop)]
pub(crate) struct Written(pub(crate) ReadInstruction);

impl fmt::Display for Written {
    fn fmt<W: fmt::Write>(&self, f: &mut fmt::Formatter<W>) -> fmt::Result {
        let ReadInstruction { op, operand } = self.0;
        match op.row().operand {
            OperandUse::Unused if operand == 0 => write!(f, "{op}"),
            _ => write!(f, "{op} {operand}"),
        }
    }
}
