// The check of one method.
ghost use Rattle.std.specs.Prelude.{◌≡◌, ◌+◌, ◌≤◌, ◌<◌, All, length, Some, None, Ok, Err, OnOk, OnErr, IfOk, IfErr, IsOk};
ghost use Rattle.check_rules.specs.Depths.{give, visited};

use crate::coding::{below, index_below, watched_below};
use check_rules::around::Around;
use check_rules::effect::{Effect, effect_of};
use check_rules::faults::MethodFault;
use check_rules::ranges::handler_suits;
use sheet::instruction::{Instruction, Operand};
use sheet::location::PlainLocation;
use sheet::op::OperandUse;
use sheet::records::{Handler, ReadInstruction};

// A method to be checked: its instructions as a text has them, its handlers, and what is known
// around them.
#[derive(Clone, Copy)]
pub(crate) struct MethodCheck<'a> {
    pub(crate) around: Around<'a>,
    pub(crate) read: &'a [ReadInstruction],
    pub(crate) handlers: &'a [Handler<PlainLocation>],
    ghost few_library_methods: { length around.library.now ≤ 32 },
    ghost few_shapes: { length around.shapes.now ≤ 16 },
    ghost few_instructions: { length read.now ≤ 2048 },
    ghost own_count: { around.count ≡ length read.now },
}

impl MethodCheck<'_> {
    ghost use Rattle.check_rules.specs.Check.{catches};
    ghost use Rattle.check_rules.specs.Coding.{meaning, decoded};
    ghost use Rattle.check_rules.specs.Depths.{caught};
    ghost use Rattle.check_rules.specs.Places.{place_of};
    ghost use Rattle.checking.specs.Methods.{code_checked, handlers_checked};
    ghost use Rattle.checking.specs.Methods.{depths_swept, depths_checked, checked_in};
    ghost use Rattle.sheet_store.specs.Adding.{whole};

    // What a number means as an operand of this use.
    fn operand(&self, operand_use: OperandUse, number: i32) -> Option<Operand<PlainLocation>>
        ensures { result ≡ meaning (place_of self.now.around) operand_use number }
    {
        let around = self.around;
        let index = |bound: u8| index_below(number, bound).map(Operand::Index);
        match operand_use {
            OperandUse::Unused => (number == 0).then_some(Operand::Nothing),
            OperandUse::Number => Some(Operand::Number(number)),
            OperandUse::Argument => index(around.own.arguments),
            OperandUse::Local => index(around.own.locals),
            OperandUse::Location => below(number, around.count).map(|target| {
                Operand::Location(PlainLocation::new(target))
            }),
            OperandUse::OwnMethod => index(around.shapes.len() as u8),
            OperandUse::LibraryMethod => index(around.library.len() as u8),
            OperandUse::WatchedMethod => watched_below(number, around.library).map(Operand::Index),
        }
    }

    // The instruction that a read one is, if its operand means something.
    fn decode(&self, read: ReadInstruction) -> Option<Instruction<PlainLocation>>
        ensures { result ≡ decoded (place_of self.now.around) read }
    {
        let operand = self.operand(read.op.row().operand, read.operand)?;
        Instruction::of(read.op, operand)
    }

    // Decodes all instructions into a lent list of as many. Handed out by value, a list with room for
    // the longest method would be copied at each step, for the shortest method too.
    fn decode_all(&self, code: &mut [Instruction<PlainLocation>]) -> Result<(), MethodFault>
        requires { length self.now.read.now ≡ length code.old }
        ensures ok { OnOk result
            (code_checked self.now.around self.now.read.now ≡ Ok code.new) }
        ensures err { IfErr result
            (λ e. code_checked self.now.around self.now.read.now ≡ Err e) }
    {
        for (at, read) in self.read.iter().enumerate() {
            code[at] = self.decode(*read).ok_or(MethodFault::Operand(at))?;
        }
        Ok(())
    }

    // That all handlers suit the method.
    fn handlers_suit(&self) -> Result<(), MethodFault>
        ensures { result ≡ handlers_checked self.now.around self.now.handlers.now }
    {
        // A loop: `position` takes a second function and a lemma to say as much.
        for (at, handler) in self.handlers.iter().enumerate() {
            if !handler_suits(*handler, self.around.own.stack_limit, self.around.count) {
                return Err(MethodFault::Handler(at));
            }
        }
        Ok(())
    }

    // Takes all locations upward.
    fn sweep(
        &self,
        code: &[Instruction<PlainLocation>],
        depths: &mut [Option<u16>],
    ) -> Result<(), MethodFault>
        requires { length code.now ≡ length depths.old }
        ensures ok { OnOk result
            (depths_swept self.now.around code.now depths.old ≡ Ok depths.new) }
        ensures err { IfErr result
            (λ e. depths_swept self.now.around code.now depths.old ≡ Err e) }
    {
        let stack_limit = self.around.own.stack_limit;
        for (at, instruction) in code.iter().enumerate() {
            let effect = effect_of(*instruction, self.around);
            visit(effect, at, stack_limit, depths).map_err(|_| MethodFault::Depth(at))?;
        }
        Ok(())
    }

    // Gives each catch begin depth 1.
    fn mark_catches(&self, depths: &mut [Option<u16>])
        requires { All (λ b. b < length depths.old) (catches self.now.handlers.now) }
        ensures { depths.new ≡ caught (catches self.now.handlers.now) depths.old }
    {
        for handler in self.handlers {
            let begin = usize::from(handler.catch_begin.number());
            depths[begin] = Some(1);
        }
    }

    // That the depths of the method agree.
    fn depths_agree(&self, code: &[Instruction<PlainLocation>]) -> Result<(), MethodFault>
        requires few_instructions { length code.now ≤ 2048 }
        requires catches_inside { All (λ b. b < length code.now) (catches self.now.handlers.now) }
        ensures ok { OnOk result
            (IsOk (depths_checked self.now.around code.now self.now.handlers.now)) }
        ensures err { IfErr result
            (λ e. depths_checked self.now.around code.now self.now.handlers.now ≡ Err e) }
    {
        // The longest method has a place for each depth, since a check takes no memory.
        let mut depths = [None; 2048];
        depths[0] = Some(0);
        let depths = &mut depths[..code.len()];
        self.mark_catches(depths);
        self.sweep(code, depths)
    }

    // Checks the method and leaves its instructions in a lent list of as many.
    pub(crate) fn check(&self, code: &mut [Instruction<PlainLocation>]) -> Result<(), MethodFault>
        requires { length self.now.read.now ≡ length code.old }
        ensures ok { OnOk result
            (checked_in self.now.around self.now.read.now self.now.handlers.now
            ≡ Ok (whole self.now.around.own code.new self.now.handlers.now)) }
        ensures err { IfErr result
            (λ e. checked_in self.now.around self.now.read.now self.now.handlers.now ≡ Err e) }
    {
        if self.read.is_empty() {
            return Err(MethodFault::NoInstruction);
        }
        if self.around.own.cells() > 256 {
            return Err(MethodFault::TooManyCells);
        }
        self.decode_all(code)?;
        self.handlers_suit()?;
        self.depths_agree(code)
    }
}

// The depths of a method do not agree.
#[derive(Clone, Copy, Debug, PartialEq, Eq)]
struct DepthFails;

// Leads to a location with a depth: it gets that depth, or must have it. The depths are a lent list
// and no struct, as in the definitions: all that is done with them is this one pass.
fn lead_to(depths: &mut [Option<u16>], next: usize, depth: u16) -> Result<(), DepthFails>
    ensures ok { OnOk result (give next depth depths.old ≡ Some depths.new) }
    ensures err { OnErr result (give next depth depths.old ≡ None) }
{
    if next >= depths.len() {
        return Err(DepthFails);
    }
    if *depths[next].get_or_insert(depth) == depth {
        Ok(())
    } else {
        Err(DepthFails)
    }
}

// Takes one location.
fn visit(
    effect: Effect,
    at: usize,
    stack_limit: u8,
    depths: &mut [Option<u16>],
) -> Result<(), DepthFails>
    requires { at < length depths.old }
    ensures ok { OnOk result (visited effect at stack_limit depths.old ≡ Some depths.new) }
    ensures err { OnErr result (visited effect at stack_limit depths.old ≡ None) }
{
    let before = *depths[at].get_or_insert(0);
    if before < effect.takes {
        return Err(DepthFails);
    }
    if effect.exact && effect.takes < before {
        return Err(DepthFails);
    }
    let after = u32::from(before - effect.takes) + u32::from(effect.leaves);
    if u32::from(stack_limit) < after {
        return Err(DepthFails);
    }
    let after = after as u16;
    if effect.falls {
        lead_to(depths, at + 1, after)?;
    }
    if let Some(target) = effect.jump {
        lead_to(depths, usize::from(target), after)?;
    }
    Ok(())
}
