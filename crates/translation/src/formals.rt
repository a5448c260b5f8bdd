// The formals that the cells of a table begin with.
ghost use Rattle.std.specs.Prelude.{◌≡◌, ◌≤◌, length};
ghost use Rattle.format.specs.declared.cell.Cell.TheVariants.{Formal};
ghost use Rattle.translator.specs.InCells.{CellIn};
ghost use Rattle.translation.specs.Standing.{SomeFormal, FormalsTo, Named};

use format::cell::Cell;
use format::instr::Instr;
use language::Variable;
use translator::Cells;

// The names of a definition's formals.
#[derive(Clone, Copy, PartialEq, Eq, Debug)]
pub(crate) struct Formals<'b> {
    names: &'b [Variable],
    ghost few: { length names.now ≤ 15 },
}

impl<'b> Formals<'b> {
    ghost use Rattle.language.specs.Names.{place};
    ghost use Rattle.translation.specs.Translation.{load, store};

    // The names of the first cells, which are FORMALs, as many as `names` holds.
    pub(crate) fn read(cells: &Cells, names: &'b mut [Variable]) -> Formals<'b>
        requires few { length names.old ≤ 15 }
        requires formals { FormalsTo cells.now (length names.old) }
        ensures many { length result.names.now ≡ length names.old }
        ensures named { Named cells.now (length result.names.now) result.names.now }
    {
        for (i, name) in names.iter_mut().enumerate() {
            *name = formal(cells, i as u16);
        }
        Formals { names }
    }

    // The index of a variable among the formals, if it is one.
    fn index(&self, x: Variable) -> Option<u8>
        ensures { result ≡ place self.now.names.now x }
    {
        self.names
            .iter()
            .position(|name| *name == x)
            .map(|i| i as u8)
    }

    pub(crate) fn load(&self, x: Variable) -> Instr
        ensures { result ≡ load (place self.now.names.now x) x }
    {
        self.index(x).map_or(Instr::LoadG(x), Instr::LoadF)
    }

    pub(crate) fn store(&self, x: Variable) -> Instr
        ensures { result ≡ store (place self.now.names.now x) x }
    {
        self.index(x).map_or(Instr::StoreG(x), Instr::StoreF)
    }
}

// The variable of the FORMAL at `at`, where there is one.
fn formal(cells: &Cells, at: u16) -> Variable
    requires { SomeFormal cells.now at }
    ensures { CellIn cells.now at (Formal result) }
{
    let Cell::Formal(x) = cells.cell(at).unwrap() else {
        unreachable!()
    };
    x
}
