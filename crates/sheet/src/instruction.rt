ghost use Rattle.std.specs.Prelude.{◌≡◌};
ghost use Rattle.sheet.specs.Instructions.{op_of, operand_of, instruction_of};

use crate::op::Op;

// An instruction with what its operand means. Branches lead to locations of one sort `P`.
#[derive(Clone, Copy, Debug, Default, PartialEq, Eq)]
pub enum Instruction<P> {
    LoadConstant(i32),
    LoadArgument(u8),
    LoadLocal(u8),
    StoreLocal(u8),
    Pop,
    Add,
    Subtract,
    CompareEqual,
    CompareLess,
    Branch(P),
    BranchTrue(P),
    CallOwn(u8),
    CallLibrary(u8),
    #[default]
    Return,
    Throw,
    Before(u8),
    After(u8),
    Except(u8),
}

// An operand by itself.
#[derive(Clone, Copy, Debug, PartialEq, Eq)]
pub enum Operand<P> {
    Nothing,
    Number(i32),
    Index(u8),
    Location(P),
}

impl<P: Copy> Instruction<P> {
    pub fn op(self) -> Op
        ensures { result ≡ op_of self }
    {
        match self {
            Instruction::LoadConstant(_) => Op::LoadConstant,
            Instruction::LoadArgument(_) => Op::LoadArgument,
            Instruction::LoadLocal(_) => Op::LoadLocal,
            Instruction::StoreLocal(_) => Op::StoreLocal,
            Instruction::Pop => Op::Pop,
            Instruction::Add => Op::Add,
            Instruction::Subtract => Op::Subtract,
            Instruction::CompareEqual => Op::CompareEqual,
            Instruction::CompareLess => Op::CompareLess,
            Instruction::Branch(_) => Op::Branch,
            Instruction::BranchTrue(_) => Op::BranchTrue,
            Instruction::CallOwn(_) => Op::CallOwn,
            Instruction::CallLibrary(_) => Op::CallLibrary,
            Instruction::Return => Op::Return,
            Instruction::Throw => Op::Throw,
            Instruction::Before(_) => Op::Before,
            Instruction::After(_) => Op::After,
            Instruction::Except(_) => Op::Except,
        }
    }

    pub fn operand(self) -> Operand<P>
        ensures { result ≡ operand_of self }
    {
        match self {
            Instruction::LoadConstant(number) => Operand::Number(number),
            Instruction::LoadArgument(index)
            | Instruction::LoadLocal(index)
            | Instruction::StoreLocal(index)
            | Instruction::CallOwn(index)
            | Instruction::CallLibrary(index)
            | Instruction::Before(index)
            | Instruction::After(index)
            | Instruction::Except(index) => Operand::Index(index),
            Instruction::Branch(target) | Instruction::BranchTrue(target) => Operand::Location(
                target,
            ),
            Instruction::Pop
            | Instruction::Add
            | Instruction::Subtract
            | Instruction::CompareEqual
            | Instruction::CompareLess
            | Instruction::Return
            | Instruction::Throw => Operand::Nothing,
        }
    }

    // The instruction of an op with an operand, if the op has an operand of that sort.
    pub fn of(op: Op, operand: Operand<P>) -> Option<Instruction<P>>
        ensures { result ≡ instruction_of op operand }
    {
        match (op, operand) {
            (Op::LoadConstant, Operand::Number(number)) => Some(Instruction::LoadConstant(number)),
            (Op::LoadArgument, Operand::Index(index)) => Some(Instruction::LoadArgument(index)),
            (Op::LoadLocal, Operand::Index(index)) => Some(Instruction::LoadLocal(index)),
            (Op::StoreLocal, Operand::Index(index)) => Some(Instruction::StoreLocal(index)),
            (Op::Pop, Operand::Nothing) => Some(Instruction::Pop),
            (Op::Add, Operand::Nothing) => Some(Instruction::Add),
            (Op::Subtract, Operand::Nothing) => Some(Instruction::Subtract),
            (Op::CompareEqual, Operand::Nothing) => Some(Instruction::CompareEqual),
            (Op::CompareLess, Operand::Nothing) => Some(Instruction::CompareLess),
            (Op::Branch, Operand::Location(target)) => Some(Instruction::Branch(target)),
            (Op::BranchTrue, Operand::Location(target)) => Some(Instruction::BranchTrue(target)),
            (Op::CallOwn, Operand::Index(index)) => Some(Instruction::CallOwn(index)),
            (Op::CallLibrary, Operand::Index(index)) => Some(Instruction::CallLibrary(index)),
            (Op::Return, Operand::Nothing) => Some(Instruction::Return),
            (Op::Throw, Operand::Nothing) => Some(Instruction::Throw),
            (Op::Before, Operand::Index(index)) => Some(Instruction::Before(index)),
            (Op::After, Operand::Index(index)) => Some(Instruction::After(index)),
            (Op::Except, Operand::Index(index)) => Some(Instruction::Except(index)),
            _ => None,
        }
    }
}
