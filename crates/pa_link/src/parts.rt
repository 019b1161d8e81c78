//! What a file declares and defines, as it stands in the program.

ghost use Rattle.std.specs.Prelude.{◌≡◌, map, IfOk};
ghost use Rattle.pa_link.specs.Numbering as spec;

use crate::numbered_expr::numbered_expr;
use crate::numbered_stmt::numbered_stmt;
use crate::numbering::Numbering;
use pa_num::{Memory, Sequence};
use pa_typed::{
    CGlobal, CGlobals, CLocal, CLocals, Cell, Cells, Declared, Declareds, Function, Functions, Unit,
};
use std::alloc::Global;

/// A file's functions, globals and declarations, with the numbers that names, types and string literals have in the program.
#[derive(Drop)]
pub(crate) struct Part {
    pub(crate) functions: Functions,
    pub(crate) globals: CGlobals,
    pub(crate) declared: Declareds,
}

fn numbered_locals(alloc: Global, locals: &[CLocal], n: &Numbering) -> Result<CLocals, Memory>
    ensures { IfOk result (λ made. made ≡ map (spec.numbered_local n.now) locals.now) }
{
    let mut made = Sequence::new(alloc);
    let mut rest = locals;
    'locals: while let [local, tail @ ..] = rest {
        made.push(CLocal {
            of: n.type_number(local.of),
            size: local.size,
            align: local.align,
        })?;
        rest = tail;
    }
    Ok(made)
}

fn numbered_function(alloc: Global, f: &Function, n: &Numbering) -> Result<Function, Memory>
    ensures { IfOk result (λ made. made ≡ spec.numbered_function n.now f.now) }
{
    Ok(Function {
        name: n.name(f.name),
        place: f.place,
        public: f.public,
        of: n.type_number(f.of),
        parameters: f.parameters,
        locals: numbered_locals(alloc, f.locals.as_slice(), n)?,
        body: numbered_stmt(alloc, &f.body, n)?,
    })
}

fn numbered_functions(
    alloc: Global,
    functions: &[Function],
    n: &Numbering,
) -> Result<Functions, Memory>
    ensures { IfOk result (λ made. made ≡ map (spec.numbered_function n.now) functions.now) }
{
    let mut made = Sequence::new(alloc);
    let mut rest = functions;
    'functions: while let [function, tail @ ..] = rest {
        made.push(numbered_function(alloc, function, n)?)?;
        rest = tail;
    }
    Ok(made)
}

fn numbered_cells(alloc: Global, cells: &[Cell], n: &Numbering) -> Result<Cells, Memory>
    ensures { IfOk result (λ made. made ≡ map (spec.numbered_cell n.now) cells.now) }
{
    let mut made = Sequence::new(alloc);
    let mut rest = cells;
    'cells: while let [cell, tail @ ..] = rest {
        made.push(Cell {
            at: cell.at,
            of: n.expr_type(cell.of),
            value: numbered_expr(alloc, &cell.value, n)?,
        })?;
        rest = tail;
    }
    Ok(made)
}

fn numbered_globals(alloc: Global, globals: &[CGlobal], n: &Numbering) -> Result<CGlobals, Memory>
    ensures { IfOk result (λ made. made ≡ map (spec.numbered_global n.now) globals.now) }
{
    let mut made = Sequence::new(alloc);
    let mut rest = globals;
    'globals: while let [global, tail @ ..] = rest {
        made.push(CGlobal {
            name: n.name(global.name),
            place: global.place,
            public: global.public,
            of: n.type_number(global.of),
            size: global.size,
            align: global.align,
            cells: numbered_cells(alloc, global.cells.as_slice(), n)?,
        })?;
        rest = tail;
    }
    Ok(made)
}

fn numbered_declareds(
    alloc: Global,
    declared: &[Declared],
    n: &Numbering,
) -> Result<Declareds, Memory>
    ensures { IfOk result (λ made. made ≡ map (spec.numbered_declared n.now) declared.now) }
{
    let mut made = Sequence::new(alloc);
    let mut rest = declared;
    'declared: while let [one, tail @ ..] = rest {
        made.push(Declared {
            name: n.name(one.name),
            place: one.place,
            public: one.public,
            of: n.type_number(one.of),
        })?;
        rest = tail;
    }
    Ok(made)
}

/// What the file declares and defines, with the numbers that it has in the program.
pub(crate) fn part_of(alloc: Global, unit: &Unit, n: &Numbering) -> Result<Part, Memory>
    ensures functions { IfOk result (λ part. part.functions ≡ map (spec.numbered_function n.now) unit.now.functions) }
    ensures globals { IfOk result (λ part. part.globals ≡ map (spec.numbered_global n.now) unit.now.globals) }
    ensures declared { IfOk result (λ part. part.declared ≡ map (spec.numbered_declared n.now) unit.now.declared) }
{
    Ok(Part {
        functions: numbered_functions(alloc, unit.functions.as_slice(), n)?,
        globals: numbered_globals(alloc, unit.globals.as_slice(), n)?,
        declared: numbered_declareds(alloc, unit.declared.as_slice(), n)?,
    })
}
