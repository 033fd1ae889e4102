// The fields of a code table that a line can hold: `kind,op,value,cell,target,node` for each entry.
use crate::nodes::{UNKNOWN, operator_code, short};
use numerals::number::integer;

// What may stand in a field. A question mark may stand in each.
#[derive(Clone, Copy)]
enum Field {
    InstructionKind,
    Operator,
    // of 16 bits, as node numbers, cells and targets are
    Number,
    // of 32 bits, below 0 too
    Value,
}

// A table and no slice pattern, which would want the words of an item in a list.
const INSTRUCTION: [Field; 6] = [
    Field::InstructionKind,
    Field::Operator,
    Field::Value,
    Field::Number,
    Field::Number,
    Field::Number,
];

impl Field {
    fn allows(self, word: &str) -> bool {
        if word == UNKNOWN {
            return true;
        }
        match self {
            Field::InstructionKind => is_instruction_kind(word),
            Field::Operator => operator_code(word).is_some(),
            Field::Number => short(word).is_some(),
            Field::Value => integer(word.as_bytes()).is_some(),
        }
    }
}

fn is_instruction_kind(word: &str) -> bool {
    matches!(
        word,
        "loadConst"
            | "loadVar"
            | "store"
            | "unyOp"
            | "binOp"
            | "input"
            | "inputBit"
            | "output"
            | "jump"
            | "goto"
    )
}

// Whether the list's items are entries; a list without items is a hyphen.
pub fn is_list(list: &str) -> bool {
    list == "-" || list.split('|').all(is_item)
}

fn is_item(item: &str) -> bool {
    item.split(',').count() == INSTRUCTION.len()
        && item
            .split(',')
            .zip(INSTRUCTION.iter())
            .all(|(word, field)| field.allows(word))
}
