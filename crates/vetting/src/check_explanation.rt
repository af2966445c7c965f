// What is told of a sheet that reads and does not pass the check. A method, an instruction or a
// handler that a fault names is always there, so where one is missing nothing is told.
use crate::own_method::OwnMethod;
use crate::words::Amount;
use crate::written::Written;
use check_rules::faults::{CheckFault, MethodFault};
use refusal::Refusal;
use sheet::location::PlainLocation;
use sheet::op::OperandUse;
use sheet::records::{Handler, ReadInstruction};
use sheet_text::reading::TextSheet;
use std::fmt;

#[derive(Drop)]
pub(crate) struct CheckExplanation<'a> {
    pub(crate) sheet: &'a TextSheet,
    pub(crate) fault: CheckFault,
}

impl fmt::Display for CheckExplanation<'_> {
    fn fmt<W: fmt::Write>(&self, f: &mut fmt::Formatter<W>) -> fmt::Result {
        let refusal = Refusal::from(self.fault).number;
        writeln!(
            f,
            "The sheet reads, but does not pass the check: refusal {refusal}."
        )?;
        match self.fault {
            CheckFault::NoMethod => writeln!(
                f,
                "The sheet has no own method. It must have at least one."
            ),
            CheckFault::Method(number, fault) => match OwnMethod::of(self.sheet, number) {
                Some(method) => method.write_fault(f, fault),
                None => Ok(()),
            },
        }
    }
}

impl OwnMethod<'_> {
    fn write_fault<W: fmt::Write>(
        &self,
        f: &mut fmt::Formatter<W>,
        fault: MethodFault,
    ) -> fmt::Result {
        let method = self.number;
        match fault {
            MethodFault::NoInstruction => writeln!(
                f,
                "Method {method} has no instruction. It must have at least one."
            ),
            MethodFault::TooManyCells => self.write_cells(f),
            MethodFault::Operand(location) => self.write_operand(f, location),
            MethodFault::Handler(number) => self.write_handler(f, number),
            MethodFault::Depth(location) => self.write_depth(f, location),
        }
    }

    fn write_cells<W: fmt::Write>(&self, f: &mut fmt::Formatter<W>) -> fmt::Result {
        let method = self.number;
        let arguments = self.arguments();
        let locals = self.locals();
        let limit = self.shape.stack_limit;
        let cells = self.shape.cells();
        writeln!(
            f,
            "Method {method} has {arguments}, {locals} and stack limit {limit}, together {cells} cells. The most is 256."
        )
    }

    // An instruction where it stands, as the beginning of a sentence.
    fn write_instruction<W: fmt::Write>(
        &self,
        f: &mut fmt::Formatter<W>,
        location: usize,
        instruction: ReadInstruction,
    ) -> fmt::Result {
        let method = self.number;
        let written = Written(instruction);
        write!(f, "Method {method}, location {location}: `{written}`")
    }

    fn write_operand<W: fmt::Write>(
        &self,
        f: &mut fmt::Formatter<W>,
        location: usize,
    ) -> fmt::Result {
        let Some(instruction) = self.code().get(location) else {
            return Ok(());
        };
        self.write_instruction(f, location, *instruction)?;
        match instruction.op.row().operand {
            OperandUse::Unused => {
                let op = instruction.op;
                writeln!(f, ", but {op} uses no operand: it must be 0.")
            }
            OperandUse::Number => writeln!(f, "."),
            OperandUse::Argument => write_range(f, "method", self.arguments()),
            OperandUse::Local => write_range(f, "method", self.locals()),
            OperandUse::Location => write_range(f, "method", self.instructions()),
            OperandUse::OwnMethod => {
                let methods = Amount(self.sheet.method_count(), "own method");
                write_range(f, "sheet", methods)
            }
            OperandUse::LibraryMethod => {
                let methods = Amount(self.sheet.library().len(), "library method");
                write_range(f, "sheet", methods)
            }
            OperandUse::WatchedMethod => writeln!(
                f,
                ", but the sheet has no watched library method of this number."
            ),
        }
    }

    fn write_handler<W: fmt::Write>(
        &self,
        f: &mut fmt::Formatter<W>,
        number: usize,
    ) -> fmt::Result {
        let Some(handler) = self.handlers().get(number) else {
            return Ok(());
        };
        let method = self.number;
        let try_begin = handler.try_begin.number();
        let try_end = handler.try_end.number();
        let catch_begin = handler.catch_begin.number();
        let catch_end = handler.catch_end.number();
        let instructions = self.instructions();
        let why = self.handler_fault(handler);
        writeln!(
            f,
            "Method {method}, handler {number}: try {try_begin} to {try_end}, catch {catch_begin} to {catch_end}, in a method of {instructions}; {why}."
        )
    }

    // The first thing that is wrong with a handler that does not suit the method. The check's
    // `handler_suits` says only whether it suits; this says which of its tests fails.
    fn handler_fault(&self, handler: &Handler<PlainLocation>) -> &'static str {
        let count = self.code().len();
        if handler.try_begin.number() >= handler.try_end.number() {
            return "the try range must not be empty";
        }
        if usize::from(handler.try_end.number()) > count {
            return "the try range must end within the method";
        }
        if handler.catch_begin.number() >= handler.catch_end.number() {
            return "the catch range must not be empty";
        }
        if usize::from(handler.catch_end.number()) > count {
            return "the catch range must end within the method";
        }
        if handler.catch_begin.number() == 0 {
            return "the catch range must not begin at 0";
        }
        if self.shape.stack_limit == 0 {
            return "the stack limit must not be 0, since the exception is put on the stack";
        }
        "its two ranges must not overlap"
    }

    fn write_depth<W: fmt::Write>(
        &self,
        f: &mut fmt::Formatter<W>,
        location: usize,
    ) -> fmt::Result {
        let Some(instruction) = self.code().get(location) else {
            return Ok(());
        };
        let limit = self.shape.stack_limit;
        self.write_instruction(f, location, *instruction)?;
        writeln!(f, ": the depth of the stack fails here.")?;
        writeln!(
            f,
            "An instruction must find what it takes and stay within the stack limit, which is {limit}; every location that it leads to must exist and have the depth that it leaves; and ret must find just what the method gives."
        )
    }
}

// What an operand may name, as the end of a sentence.
fn write_range<W: fmt::Write>(
    f: &mut fmt::Formatter<W>,
    holder: &str,
    named: Amount,
) -> fmt::Result {
    writeln!(f, ", but the {holder} has {named}, counted from 0.")
}
