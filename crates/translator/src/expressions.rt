// The code of expressions.
ghost use Rattle.tosca.specs.Decode.{expr_at};
ghost use Rattle.draft.specs.Opening.{entries_of};
ghost use Rattle.aida.specs.Templates.{expr_code};
ghost use Rattle.translator.specs.Emitting.{ExprReady, Emitted};

use crate::emitter::Emitter;
use crate::instructions::{in_order, next_cell, number};
use aida::instructions::Instruction;
use checks::nodes::node_at;
use draft::draft::Draft;
use tosca::table::Node;

// Emits the code of the expression n, with temporaries from the cell on.
pub(crate) fn expression(draft: &Draft, n: u16, cell: u16, code: &mut Emitter<'_>)
    requires { ExprReady (entries_of draft.now) n cell code.old.next }
    ensures { Emitted code.old (expr_code cell (expr_at (entries_of draft.now) n)) code.new }
{
    match node_at(draft, n) {
        Node::Const(value) => code.emit(n, Instruction::LoadConst(number(value))),
        Node::Var(name) => code.emit(n, Instruction::LoadVar(name)),
        Node::Uny(op, a) => {
            expression(draft, a, cell, code);
            code.emit(n, Instruction::UnaryOp(op));
        }
        Node::Bin(a, op, b) => {
            let operands = in_order(a, b);
            expression(draft, operands.first, cell, code);
            code.emit(n, Instruction::Store(cell));
            expression(draft, operands.last, next_cell(cell), code);
            code.emit(n, Instruction::BinaryOp(op, cell));
        }
        _ => unreachable(),
    }
}
