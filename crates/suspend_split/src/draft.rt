//! Code that is made from its end.
ghost use Rattle.std.specs.Prelude.{◌≡◌, ◌<◌, ◌++◌, ◌∷◌, [], length, slice_set, Some, cond, ℕ, IfNone, IfSome, IfOk, OnOk};
ghost use Rattle.core_ir.specs.CodeView.{Names, code_of, exit_code, instruction as instruction_view};
ghost use Rattle.core_ir.specs.declared.code.Operand.{Operand as OperandForm};
ghost use Rattle.core_ir.specs.declared.primitive.Primitive.TheVariants.{Copy};
ghost use Rattle.core_ir.specs.Code.{Code as CodeForm, Leave, Let, Stop};
ghost use Rattle.core_laws.specs.Slots.{into, jump as jump_code, move as move_code};
ghost use Rattle.suspend_split.specs.Drafts.{before, begun, draft_code, next_exit, segments_code};
ghost use Rattle.suspend_split.specs.Kinds.{inner};
ghost use Rattle.suspend_split.specs.Makes.{Begins};

use crate::around::{Around, Surroundings};
use core_ir::{Code, Exit, Instruction, Operand, Primitive, Scopes, Shared, Way};
use mo_num::{Memory, Sequence};
use mo_syntax::Items;
use std::alloc::Global;
use std::mem::replace;

/// Code that grows at its front: its instructions from the last to the first, and its exit.
#[derive(Drop)]
pub(crate) struct Draft {
    pub instructions: Sequence<Instruction>,
    pub exit: Exit,
}

/// The segments of a body; one without code yet is kept free.
pub(crate) struct Segments {
    pub list: Vec<Option<Code>>,
}

impl Drop for Segments {
    fn drop(self) {
        let Segments { list: _list } = self;
    }
}

impl Segments {
    // None. Takes no memory.
    pub(crate) fn new(alloc: Global) -> Segments
        ensures { result.list.items ≡ [] }
    {
        Segments {
            list: Vec::new(alloc),
        }
    }

    // A further segment, and its number.
    pub(crate) fn add(&mut self, code: Option<Code>) -> Result<u32, Memory>
        ensures added { OnOk result (self.new.list.items ≡ self.old.list.items ++ code ∷ []) }
        ensures number { IfOk result (λ number. number ≡ length self.old.list.items) }
    {
        let Ok(number) = u32::try_from(self.list.len()) else {
            return Err(Memory);
        };
        self.list.push(code)?;
        Ok(number)
    }

    // The code of a segment that was kept free.
    pub(crate) fn fill(&mut self, segment: u32, code: Code)
        ensures { self.new.list.items ≡ slice_set self.old.list.items segment (Some code) }
    {
        if (segment as usize) < self.list.len() {
            self.list[segment as usize] = Some(code);
        }
    }

    // The segments as a vector.
    pub(crate) fn into_vec(self) -> Vec<Option<Code>>
        ensures { result.items ≡ self.list.items }
    {
        let Segments { list } = self;
        list
    }
}

impl Draft {
    // Nothing but an exit. Takes no memory.
    pub(crate) fn new(alloc: Global, exit: Exit) -> Draft
        ensures { (names : Names) → draft_code names result ≡ exit_code exit }
    {
        Draft {
            instructions: Sequence::new(alloc),
            exit,
        }
    }

    // An instruction before the code.
    pub(crate) fn put(&mut self, instruction: Instruction) -> Result<(), Memory>
        ensures { OnOk result ((names : Names) → draft_code names self.new ≡ instruction_view instruction names (draft_code names self.old)) }
    {
        self.instructions.push(instruction)?;
        Ok(())
    }

    // The segment as which the code goes on at once, if it does.
    fn leaves(&self) -> Option<u32>
        ensures leaves { IfSome result (λ segment. (names : Names) → draft_code names self.now ≡ Leave segment) }
        ensures goes_on { IfNone result ((names : Names) (slot : ℕ) (operand : OperandForm) → into slot operand (draft_code names self.now) ≡ Let slot Copy (operand ∷ []) (draft_code names self.now)) }
    {
        if self.instructions.len() > 0 {
            return None;
        }
        match &self.exit {
            Exit::Leave(segment) => Some(*segment),
            Exit::Stop => None,
            Exit::Branch(_) => None,
            Exit::Pass(_, _, _) => None,
            Exit::Wait(_, _, _, _) => None,
            Exit::Raise(_, _) => None,
            Exit::Return(_) => None,
        }
    }

    // Before the code the operand's value comes into the slot, if it is looked at.
    #[tactic(auto, unfolding(core_ir::specs::CodeView::code_of, core_ir::specs::CodeView::instruction))]
    pub(crate) fn put_move(
        &mut self,
        alloc: Global,
        slot: Option<u32>,
        operand: Operand,
    ) -> Result<(), Memory>
        ensures { OnOk result ((names : Names) → draft_code names self.new ≡ move_code slot operand (draft_code names self.old)) }
    {
        let Some(slot) = slot else {
            return Ok(());
        };
        match self.leaves() {
            Some(segment) => {
                *self = Draft::new(alloc, Exit::Pass(slot, operand, segment));
                Ok(())
            }
            None => {
                let copy = Shared::new(alloc, Primitive::Copy)?;
                let mut operands = Sequence::new(alloc);
                operands.push(operand)?;
                self.put(Instruction::Let(slot, copy, operands))?;
                Ok(())
            }
        }
    }

    // The code as a whole.
    pub(crate) fn finish(self, alloc: Global) -> Result<Code, Memory>
        ensures { IfOk result (λ made. (names : Names) → code_of made names ≡ draft_code names self) }
    {
        let Draft { instructions, exit } = self;
        Ok(Code {
            instructions: from_first(alloc, instructions)?,
            exit,
        })
    }
}

// The instructions from the first to the last.
fn from_first(
    alloc: Global,
    instructions: Sequence<Instruction>,
) -> Result<Items<Instruction>, Memory>
    ensures { IfOk result (λ made. (names : Names) (c : CodeForm) → begun made names c ≡ before instructions names c) }
{
    let mut from_end = instructions.into_vec();
    let mut made = Items::new(alloc);
    while let Some(instruction) = from_end.pop() {
        made.push(instruction)?;
    }
    Ok(made)
}

// The exit that goes this way.
pub(crate) fn jump(way: Way) -> Exit
    ensures { exit_code result ≡ jump_code way }
{
    match way {
        Way::Near(out) => Exit::Branch(out),
        Way::Far(segment) => Exit::Leave(segment),
    }
}

/// What is made of a body so far.
#[derive(Drop)]
pub(crate) struct State {
    pub draft: Draft,
    pub segments: Segments,
    pub scopes: Scopes,
    pub around: Surroundings,
}

impl State {
    // The code becomes a segment, and its number.
    pub(crate) fn cut(&mut self, alloc: Global) -> Result<u32, Memory>
        ensures cut { OnOk result ((names : Names) → segments_code names self.new.segments.list.items ≡ segments_code names self.old.segments.list.items ++ Some (draft_code names self.old.draft) ∷ []) }
        ensures number { IfOk result (λ number. number ≡ length self.old.segments.list.items) }
        ensures draft { OnOk result ((names : Names) → draft_code names self.new.draft ≡ Stop) }
        ensures scopes { OnOk result (self.new.scopes ≡ self.old.scopes) }
        ensures around { OnOk result (self.new.around ≡ self.old.around) }
    {
        let draft = replace(&mut self.draft, Draft::new(alloc, Exit::Stop));
        let code = draft.finish(alloc)?;
        self.segments.add(Some(code))
    }

    // A construct begins: whole, with the code behind it, or cut, so that the code behind it is a segment and nothing behind it is
    // reached. It says how the parts of the construct end.
    pub(crate) fn begin(&mut self, alloc: Global, cut: bool) -> Result<Option<u32>, Memory>
        ensures { IfOk result (λ segment. Begins cut self.old self.new (next_exit segment)) }
    {
        if cut {
            let segment = self.cut(alloc)?;
            self.draft = Draft::new(alloc, Exit::Leave(segment));
            return Ok(Some(segment));
        }
        self.around.enter(Around::Other)?;
        Ok(None)
    }

    // The construct is over.
    pub(crate) fn end(&mut self, cut: bool)
        ensures { self.new ≡ record { draft = self.old.draft; segments = self.old.segments; scopes = self.old.scopes; around = cond cut self.old.around (inner self.old.around) } }
    {
        if !cut {
            self.around.leave();
        }
    }
}

/// How the parts of a construct end: behind it, or as this segment.
pub(crate) fn next(segment: Option<u32>) -> Exit
    ensures { result ≡ next_exit segment }
{
    match segment {
        None => Exit::Stop,
        Some(segment) => Exit::Leave(segment),
    }
}
