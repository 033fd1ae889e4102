// The code of commands.
ghost use Rattle.tosca.specs.Decode.{cmd_at};
ghost use Rattle.draft.specs.Opening.{entries_of};
ghost use Rattle.walk.specs.Readings.{types_of};
ghost use Rattle.aida.specs.Templates.{cmd_code};
ghost use Rattle.translator.specs.Emitting.{CmdReady, Emitted};

use crate::emitter::Emitter;
use crate::expressions::expression;
use crate::instructions::{TEMPORARIES, input_by};
use aida::instructions::Instruction;
use checks::nodes::node_at;
use draft::draft::Draft;
use tosca::table::Node;
use walk::types::Typing;

// Emits the code of the command n. Expressions need no types, so a struct of the draft and the types would serve this function alone.
pub(crate) fn command(draft: &Draft, typing: &Typing, n: u16, code: &mut Emitter<'_>)
    requires { CmdReady (entries_of draft.now) n code.old.next }
    ensures { Emitted code.old (cmd_code (types_of typing.now) code.old.next (cmd_at (entries_of draft.now) n)) code.new }
{
    match node_at(draft, n) {
        Node::Skip => {}
        Node::Assign(name, a) => {
            expression(draft, a, TEMPORARIES, code);
            code.emit(n, Instruction::Store(name));
        }
        Node::Seq(a, b) => {
            command(draft, typing, a, code);
            command(draft, typing, b, code);
        }
        Node::Choice(a, b, c) => {
            expression(draft, a, TEMPORARIES, code);
            let to_else = code.reserve();
            command(draft, typing, b, code);
            let to_end = code.reserve();
            code.jump_here(to_else, n);
            command(draft, typing, c, code);
            code.go_here(to_end, n);
        }
        Node::Loop(a, b) => {
            let start = code.next;
            expression(draft, a, TEMPORARIES, code);
            let out = code.reserve();
            command(draft, typing, b, code);
            code.go_back(start, n);
            code.jump_here(out, n);
        }
        Node::Input(name) => {
            code.emit(n, input_by(typing, name));
            code.emit(n, Instruction::Store(name));
        }
        Node::Output(a) => {
            expression(draft, a, TEMPORARIES, code);
            code.emit(n, Instruction::Output);
        }
        _ => unreachable(),
    }
}
