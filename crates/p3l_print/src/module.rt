// Modules.

ghost use Rattle.std.specs.Prelude.{◌≡◌, ◌++◌, flat_map};
ghost use Rattle.p3l_base.specs.Memory.{OnGiven};
ghost use Rattle.p3l_ast.specs.Tree.{statements, inside_tree, module_tree, turning};
ghost use Rattle.p3l_ast.specs.Tree.{body as body_tree};
ghost use Rattle.p3l_print.specs.Module.{clause_text, minus_text, rescue_text, clauses_text, signature_text, local_line, call_line, inside_text, module_text};

use crate::printer::Printer;
use p3l_ast::{Block, Call, Clauses, Inside, Module, Num, Port, Rescue};
use p3l_base::NoMemory;
use p3l_grammar::mark::mark_of_kind;

impl Printer {
    pub fn module(&mut self, tree: &Module) -> Result<(), NoMemory>
        ensures { OnGiven result (self.new ≡ self.old ++ module_text (module_tree tree.now)) }
    {
        self.head(tree)?;
        self.inside(&tree.inside)?;
        self.put(b"end ")?;
        self.put(mark_of_kind(tree.kind).text().as_bytes())?;
        self.put(b"\n")
    }

    /// The first line.
    fn head(&mut self, tree: &Module) -> Result<(), NoMemory>
        ensures { OnGiven result (self.new ≡ self.old ++ signature_text (module_tree tree.now)) }
    {
        self.put(mark_of_kind(tree.kind).text().as_bytes())?;
        self.put(b" ")?;
        self.name(&tree.at.name)?;
        self.interface(tree.ins.as_slice(), tree.outs.as_slice())?;
        self.clauses(&tree.clauses)?;
        self.put(b"\n")
    }

    #[tactic(auto, unfolding(crate::specs::Module::clauses_text))]
    fn clauses(&mut self, clauses: &Clauses) -> Result<(), NoMemory>
        ensures { OnGiven result (self.new ≡ self.old ++ clauses_text clauses.now) }
    {
        self.clause(b"budget", &clauses.budget)?;
        self.rescue(&clauses.rescue)?;
        self.clause(b"workers", &clauses.workers)?;
        self.clause(b"turns", &clauses.turns)?;
        self.clause(b"tokens", &clauses.tokens)
    }

    /// A clause after a space, if it is given.
    fn clause(&mut self, word: &[u8], clause: &Option<Num>) -> Result<(), NoMemory>
        ensures { OnGiven result (self.new ≡ self.old ++ clause_text word.now clause.now) }
    {
        let Some(num) = clause else {
            return Ok(());
        };
        self.put(b" ")?;
        self.put(word)?;
        self.put(b" ")?;
        self.num(num)
    }

    /// The rescue after a space, if it is given.
    fn rescue(&mut self, clause: &Option<Rescue>) -> Result<(), NoMemory>
        ensures { OnGiven result (self.new ≡ self.old ++ rescue_text clause.now) }
    {
        let Some(rescue) = clause else {
            return Ok(());
        };
        self.put(b" rescue ")?;
        self.minus(rescue.minus)?;
        self.num(&rescue.num)
    }

    /// A minus, where there is one.
    fn minus(&mut self, is_there: bool) -> Result<(), NoMemory>
        ensures { OnGiven result (self.new ≡ self.old ++ minus_text is_there) }
    {
        if is_there { self.put(b"-") } else { Ok(()) }
    }

    fn inside(&mut self, inside: &Inside) -> Result<(), NoMemory>
        ensures { OnGiven result (self.new ≡ self.old ++ inside_text (inside_tree inside.now)) }
    {
        match inside {
            Inside::Body(body) => self.body(body),
            Inside::Calls(calls) => self.calls(calls.as_slice()),
            Inside::Turning(body, condition) => self.turning(body, condition),
        }
    }

    fn body(&mut self, body: &Block) -> Result<(), NoMemory>
        ensures { OnGiven result (self.new
            ≡ self.old ++ inside_text (body_tree body.now.locals (statements body.now.stmts))) }
    {
        self.put(b"${\n")?;
        self.locals(body.locals.as_slice())?;
        self.statements(b"  ", body.stmts.as_slice())?;
        self.put(b"}$\n")
    }

    fn locals(&mut self, locals: &[Port]) -> Result<(), NoMemory>
        ensures { OnGiven result (self.new ≡ self.old ++ flat_map local_line locals.now) }
    {
        for port in locals {
            self.put(b"  ")?;
            self.port(port)?;
            self.put(b";\n")?;
        }
        Ok(())
    }

    fn calls(&mut self, calls: &[Call]) -> Result<(), NoMemory>
        ensures { OnGiven result (self.new ≡ self.old ++ flat_map call_line calls.now) }
    {
        for call in calls {
            self.call_line(call)?;
        }
        Ok(())
    }

    fn call_line(&mut self, call: &Call) -> Result<(), NoMemory>
        ensures { OnGiven result (self.new ≡ self.old ++ call_line call.now) }
    {
        self.put(b"  ")?;
        self.call(call)?;
        self.put(b"\n")
    }

    /// The body's call and the condition's.
    fn turning(&mut self, body: &Call, condition: &Call) -> Result<(), NoMemory>
        ensures { OnGiven result (self.new
            ≡ self.old ++ inside_text (turning body.now condition.now)) }
    {
        self.call_line(body)?;
        self.put(b"  while ")?;
        self.call(condition)?;
        self.put(b"\n")
    }
}
