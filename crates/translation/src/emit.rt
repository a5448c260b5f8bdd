// The code of expressions, written into the memory of an image.
ghost use Rattle.std.specs.Prelude.{◌+◌, ◌≤◌, length};
ghost use Rattle.format.specs.declared.cell.Cell.TheVariants.{Set, If, While, Begin, Apply};
ghost use Rattle.translation.specs.Writing.{Emitted};
ghost use Rattle.translator.specs.InCells.{CellIn};
ghost use Rattle.translation.specs.Standing.{SomeCell};
ghost use Rattle.translation.specs.Emission.{Ready, ReadyAs, Emits, before, ReadyList, EmitsList};

use crate::formals::Formals;
use crate::writer::Writer;
use format::cell::Cell;
use format::instr::Instr;
use language::{Function, Variable};
use translator::Cells;

// What the expressions of a list are: parts of a BEGIN after its first, or arguments.
#[derive(Clone, Copy, PartialEq, Eq, Debug)]
pub(crate) enum Role {
    Part,
    Argument,
}

impl Role {
    // A POP before a part, and nothing before an argument.
    // A match and no closure: the contract names what stands before an expression.
    fn put_pop(self, out: &mut Writer)
        requires { out.old.end + length (before self) ≤ out.old.count }
        ensures { Emitted out.old out.new 0 (before self) }
    {
        match self {
            Role::Part => out.emit(Instr::Pop),
            Role::Argument => {}
        }
    }
}

// The cells of a table, and its formals.
#[derive(Clone, Copy, PartialEq, Eq, Debug)]
pub(crate) struct Source<'a, 'b> {
    pub(crate) cells: Cells<'a>,
    pub(crate) formals: Formals<'b>,
}

// Each method for a kind of expression requires that one of that kind stands at the writer's next cell. That ties the cells to the writer, and no one value has both.
impl<'a, 'b> Source<'a, 'b> {
    // The cell at `at`, where there is one.
    fn cell(&self, at: u16) -> Cell
        requires { SomeCell self.now.cells at }
        ensures { CellIn self.now.cells at result }
    {
        self.cells.cell(at).unwrap()
    }

    // Translates the expression at the next cell.
    #[cycle(emitting)]
    pub(crate) fn translate_expression(&self, out: &mut Writer)
        requires { Ready self.now out.old }
        ensures { Emits self.now out.old out.new }
    {
        match self.cell(out.next) {
            Cell::Literal(value) => {
                out.skip_cell();
                out.emit(Instr::Push(value));
            }
            Cell::Var(x) => {
                out.skip_cell();
                out.emit(self.formals.load(x));
            }
            Cell::Set(x) => self.translate_set(out, x),
            Cell::If => self.translate_if(out),
            Cell::While => self.translate_while(out),
            Cell::Begin(count) => self.translate_begin(out, count),
            Cell::Apply(function, count) => self.translate_apply(out, function, count),
            Cell::Formal(_) => unreachable!(),
        }
    }

    #[cycle(emitting)]
    fn translate_set(&self, out: &mut Writer, x: Variable)
        requires { ReadyAs self.now out.old (Set x) }
        ensures { Emits self.now out.old out.new }
    {
        // The value, and then its store in the place after it.
        out.skip_cell();
        self.translate_expression(out);
        let last = out.reserve();
        out.put(last, self.formals.store(x));
    }

    #[cycle(emitting)]
    fn translate_if(&self, out: &mut Writer)
        requires { ReadyAs self.now out.old If }
        ensures { Emits self.now out.old out.new }
    {
        out.skip_cell();
        self.translate_expression(out);
        let test = out.reserve();
        self.translate_expression(out);
        let second = out.reserve();
        out.put(test, Instr::Jz(out.end));
        self.translate_expression(out);
        out.put(second, Instr::Jump(out.end));
    }

    #[cycle(emitting)]
    fn translate_while(&self, out: &mut Writer)
        requires { ReadyAs self.now out.old While }
        ensures { Emits self.now out.old out.new }
    {
        let start = out.end;
        out.skip_cell();
        self.translate_expression(out);
        let exit = out.reserve();
        self.translate_expression(out);
        out.emit(Instr::Pop);
        out.emit(Instr::Jump(start));
        out.put(exit, Instr::Jz(out.end));
        out.emit(Instr::Push(0));
    }

    #[cycle(emitting)]
    fn translate_begin(&self, out: &mut Writer, count: u16)
        requires { ReadyAs self.now out.old (Begin count) }
        ensures { Emits self.now out.old out.new }
    {
        out.skip_cell();
        if count == 0 {
            out.emit(Instr::Push(0));
            return;
        }
        self.translate_expression(out);
        self.translate_list(out, Role::Part, count - 1);
    }

    #[cycle(emitting)]
    fn translate_apply(&self, out: &mut Writer, function: Function, count: u8)
        requires { ReadyAs self.now out.old (Apply function count) }
        ensures { Emits self.now out.old out.new }
    {
        out.skip_cell();
        out.emit(Instr::Find(function));
        self.translate_list(out, Role::Argument, count as u16);
        out.emit(Instr::Call(function, count));
    }

    // Translates `count` expressions one after the other.
    // By recursion, as lists of parts are defined: the first and the rest.
    #[cycle(emitting)]
    fn translate_list(&self, out: &mut Writer, role: Role, count: u16)
        requires { ReadyList self.now role out.old count }
        ensures { EmitsList self.now role out.old out.new count }
    {
        if count == 0 {
            return;
        }
        role.put_pop(out);
        self.translate_expression(out);
        self.translate_list(out, role, count - 1);
    }
}
