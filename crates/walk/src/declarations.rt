// The types that a draft declares.
ghost use Rattle.std.specs.Prelude.{◌≡◌, ℕ, ◌<◌, Some, slice_set};
ghost use Rattle.std.specs.Option.{option_or};
ghost use Rattle.draft.specs.Opening.{tree_of};
ghost use Rattle.statics.specs.Typing.{type_in};
ghost use Rattle.walk.specs.Readings.{types_of};
ghost use Rattle.walk.specs.Gathering.{declaration as declaration_of};

use crate::types::Typing;
use draft::draft::Draft;
use tosca::operators::SimpleType;
use tosca::table::Node;

// The name and the type of a declaration.
fn declaration(node: Option<Node>) -> Option<(u16, SimpleType)>
    ensures { result ≡ declaration_of node }
{
    match node {
        Some(Node::Decl(name, typ)) => Some((name, typ)),
        _ => None,
    }
}

impl Typing {
    // A name keeps the type that it has.
    fn declare(&mut self, name: u16, typ: SimpleType)
        requires { name < 64 }
        ensures { self.new.types ≡ slice_set self.old.types name (option_or (types_of self.old name) (Some typ)) }
    {
        let name = usize::from(name);
        self.types[name] = self.types[name].or(Some(typ));
    }

    // The types of a draft's names, each that of the name's first declaration.
    pub fn of(draft: &Draft) -> Typing
        ensures { (x : ℕ) → types_of result x ≡ type_in (tree_of draft.now).decls x }
    {
        let mut typing = Typing { types: [None; 64] };
        for entry in draft.entries() {
            if let Some((name, typ)) = declaration(entry.node()) {
                typing.declare(name, typ);
            }
        }
        typing
    }
}
