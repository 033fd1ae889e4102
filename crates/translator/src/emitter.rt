// Writing code into a lent table.
ghost use Rattle.std.specs.Prelude.{◌≡◌, ◌<◌, [], ◌∷◌};
ghost use Rattle.aida.specs.declared.instructions.Instruction.TheVariants.{Jump, Goto};
ghost use Rattle.aida.specs.Templates.{coded};
ghost use Rattle.translator.specs.Emitting.{Stores, Emitted};

use aida::instructions::{Coded, Instruction};
use code::table::CodeEntry;

// Instructions come one after another. Past the end of the table they are counted and not written.
// No call allocates: the caller lends the table, and the count stands beside it.
#[derive(Drop)]
pub(crate) struct Emitter<'a> {
    pub(crate) table: &'a mut [CodeEntry],
    // the number of the next instruction
    pub(crate) next: u16,
}

impl Emitter<'_> {
    // Writes the instruction of a number. Past the end of the table it writes nothing.
    fn write(&mut self, at: u16, node: u16, instruction: Instruction)
        ensures { Stores self.old at (coded node instruction ∷ []) 0 self.new }
    {
        let at = usize::from(at);
        // by index: after a slice's get_mut a proof knows nothing of the element
        if at < self.table.len() {
            self.table[at] = CodeEntry::new(Coded { instruction, node });
        }
    }

    // Writes the next instruction. That there may be one more is asked of each call: after the last there is none. Each caller has the two parts, so a `Coded` would be longer at each call.
    pub(crate) fn emit(&mut self, node: u16, instruction: Instruction)
        requires { self.old.next < 2048 }
        ensures { Emitted self.old (coded node instruction ∷ []) self.new }
    {
        self.write(self.next, node, instruction);
        self.next += 1;
    }

    // Leaves out an instruction whose target is not known yet, and gives its number.
    pub(crate) fn reserve(&mut self) -> u16
        requires { self.old.next < 2048 }
        ensures number { result ≡ self.old.next }
        ensures skips { Stores self.old self.old.next [] 1 self.new }
    {
        let number = self.next;
        self.next += 1;
        number
    }

    // Jumps and gotos have a function each, so that a wrong target is refused at its own.

    // The reserved instruction is a jump to the next instruction.
    pub(crate) fn jump_here(&mut self, reserved: u16, node: u16)
        ensures { Stores self.old reserved (coded node (Jump self.old.next) ∷ []) 0 self.new }
    {
        self.write(reserved, node, Instruction::Jump(self.next));
    }

    // The reserved instruction goes to the next instruction.
    pub(crate) fn go_here(&mut self, reserved: u16, node: u16)
        ensures { Stores self.old reserved (coded node (Goto self.old.next) ∷ []) 0 self.new }
    {
        self.write(reserved, node, Instruction::Goto(self.next));
    }

    // Goes back to the instruction of a number.
    pub(crate) fn go_back(&mut self, start: u16, node: u16)
        requires { self.old.next < 2048 }
        ensures { Emitted self.old (coded node (Goto start) ∷ []) self.new }
    {
        self.emit(node, Instruction::Goto(start));
    }
}
