// Whether a variable is read only where it is set.
ghost use Rattle.std.specs.Prelude.{◌≡◌, ◌^◌, ◌<◌, ◌≤◌, length, None, bit_and, bit_or};
ghost use Rattle.tosca.specs.Decode.{expr_at, cmd_at};
ghost use Rattle.tosca.specs.Opens.{is_expr, is_cmd};
ghost use Rattle.draft.specs.Opening.{entries_of, tree_of};
ghost use Rattle.statics.specs.declared.rules.Rule.TheVariants.{Set};
ghost use Rattle.statics.specs.Checking.{faults};
ghost use Rattle.statics.specs.Choosing.{lowest};
ghost use Rattle.statics.specs.Setting.{unset_in as unset_nodes};
ghost use Rattle.walk.specs.Readings.{holds};
ghost use Rattle.checks.specs.Lowering.{lower_of};
ghost use Rattle.checks.specs.Settings.{IsNode, HasReads, Comes};

use crate::lowering::lower;
use crate::nodes::{body, node_at};
use draft::draft::{Draft, MAX_NODES};
use tosca::table::Node;
use walk::names::Names;
use walk::variables::variables_read;

// What is set in the end, and the lowest node on the way that reads a variable that may be unset.
#[derive(Clone, Copy)]
struct Flow {
    set: Names,
    fault: Option<u16>,
}

impl Flow {
    // Nothing is read or set.
    fn start(set: Names) -> Flow
        ensures set { result.set ≡ set }
        ensures fault { result.fault ≡ None }
    {
        Flow { set, fault: None }
    }

    fn setting(self, name: u16) -> Flow
        requires { name < 64 }
        ensures set { result.set ≡ bit_or self.set (2 ^ name) }
        ensures fault { result.fault ≡ self.fault }
    {
        Flow {
            set: self.set.with(name),
            fault: self.fault,
        }
    }

    fn then(self, next: Flow) -> Flow
        ensures set { result.set ≡ next.set }
        ensures fault { result.fault ≡ lower_of self.fault next.fault }
    {
        Flow {
            set: next.set,
            fault: lower(self.fault, next.fault),
        }
    }

    // Only what both branches set is set.
    fn or(self, other: Flow) -> Flow
        ensures set { result.set ≡ bit_and self.set other.set }
        ensures fault { result.fault ≡ lower_of self.fault other.fault }
    {
        Flow {
            set: self.set & other.set,
            fault: lower(self.fault, other.fault),
        }
    }

    // The turn may not run at all.
    fn repeating(self, turn: Flow) -> Flow
        ensures set { result.set ≡ self.set }
        ensures fault { result.fault ≡ lower_of self.fault turn.fault }
    {
        Flow {
            set: self.set,
            fault: lower(self.fault, turn.fault),
        }
    }
}

// A draft, and the variables that each of its expressions reads.
#[derive(Clone, Copy)]
struct Reads<'a> {
    draft: &'a Draft,
    reads: &'a [Names],
    ghost room: { length (entries_of draft.now) ≤ length reads.now },
    ghost read: { HasReads (entries_of draft.now) reads.now },
}

impl Reads<'_> {
    // The lowest node of an expression that reads a variable outside the set.
    fn unset_in(&self, n: u16, set: Names) -> Option<u16>
        requires { IsNode (entries_of self.now.draft.now) n is_expr }
        ensures { result ≡ lowest (unset_nodes (holds set) (expr_at (entries_of self.now.draft.now) n)) }
    {
        if set.covers(self.reads[usize::from(n)]) {
            return None;
        }
        match node_at(self.draft, n) {
            Node::Var(name) => { if set.has(name) { None } else { Some(n) } }
            Node::Uny(_, a) => self.unset_in(a, set),
            Node::Bin(a, _, b) => lower(self.unset_in(a, set), self.unset_in(b, set)),
            _ => None,
        }
    }

    // An expression sets nothing.
    fn value(&self, n: u16, set: Names) -> Flow
        requires { IsNode (entries_of self.now.draft.now) n is_expr }
        ensures set { result.set ≡ set }
        ensures fault { result.fault ≡ lowest (unset_nodes (holds set) (expr_at (entries_of self.now.draft.now) n)) }
    {
        Flow {
            set,
            fault: self.unset_in(n, set),
        }
    }

    // A variable is set after the expression is worked out.
    fn assigned(&self, name: u16, a: u16, before: Names) -> Flow
        requires named { name < 64 }
        requires value { IsNode (entries_of self.now.draft.now) a is_expr }
        ensures set { result.set ≡ bit_or before (2 ^ name) }
        ensures fault { result.fault ≡ lowest (unset_nodes (holds before) (expr_at (entries_of self.now.draft.now) a)) }
    {
        self.value(a, before).setting(name)
    }

    // What the command n comes to where the variables of a set are set before it.
    fn follow(&self, n: u16, before: Names) -> Flow
        requires { IsNode (entries_of self.now.draft.now) n is_cmd }
        ensures { Comes (cmd_at (entries_of self.now.draft.now) n) (holds before) result.set result.fault }
    {
        match node_at(self.draft, n) {
            Node::Assign(name, a) => self.assigned(name, a, before),
            Node::Seq(a, b) => {
                let first = self.follow(a, before);
                first.then(self.follow(b, first.set))
            }
            Node::Choice(a, b, c) => {
                let yes = self.follow(b, before);
                let no = self.follow(c, before);
                self.value(a, before).then(yes.or(no))
            }
            Node::Loop(a, b) => self.value(a, before).repeating(self.follow(b, before)),
            Node::Input(name) => Flow::start(before).setting(name),
            Node::Output(a) => self.value(a, before),
            _ => Flow::start(before),
        }
    }
}

// The lowest node that reads a variable that may be unset.
pub(crate) fn unset_variable(draft: &Draft) -> Option<u16>
    ensures { result ≡ lowest (faults Set (tree_of draft.now)) }
{
    // No call allocates, so a draft's nodes have room in an array.
    let mut reads = [Names::none(); MAX_NODES];
    variables_read(draft, &mut reads);
    let reads = Reads {
        draft,
        reads: &reads,
    };
    reads.follow(body(draft), Names::none()).fault
}
