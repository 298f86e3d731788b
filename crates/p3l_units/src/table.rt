// Tables of units.

ghost use Rattle.std.specs.Prelude.{◌≡◌, ◌<◌, length, IfSome, Some};
ghost use Rattle.p3l_base.specs.Memory.{IfGiven};
ghost use Rattle.std.specs.List.{All};
ghost use Rattle.p3l_skel.specs.declared.tree.Form.TheVariants as forms;
ghost use Rattle.p3l_skel.specs.Tree.{node_at};
ghost use Rattle.p3l_skel.specs.Lawful.{IsLawfulTree};
ghost use Rattle.p3l_units.specs.Table.{ArePlaced, code_of, DoesNode, HasBareNodes, HasCode, HasPlaces, IsBareNode, leaf, LeavesAreRuns, one_if_seq};

use p3l_base::{List, NoMemory, Outcome, Words};
use p3l_code::SafeCode;
use p3l_registers::{Executable, RegisterCode};
use p3l_skel::{Form, ModuleKind, Tree};
use std::alloc::Global;
use std::marker::Model;

/// The sequential nodes of a lawful tree, which run on a code for each `seq` module. Contracts see
/// the tree, and the codes in the order of the modules.
#[derive(Drop)]
pub struct UnitTable<'t> {
    tree: &'t Tree,
    codes: List<Executable>,
    // For each module, how many `seq` modules are before it.
    places: List<u32>,
    // For each node, the code that does all of its work in registers, if one does.
    bare_nodes: List<Option<BareNode>>,
}

/// A `seq` node whose code runs in registers and whose module rescues no trap: a run of the code is
/// all that it does.
#[derive(Clone, Copy, Drop)]
pub struct BareNode {
    /// The place of its code among the codes of the table.
    pub place: u32,
    pub module: u32,
}

impl<'t> Model for UnitTable<'t> {
    ghost use Rattle.p3l_units.specs.Table.{Served, IsTable};

    ghost Value = { Served };

    ghost view = { λ it. record { tree = it.tree.now; codes = it.codes } };

    ghost invariant = { λ it. IsTable it.tree.now it.codes it.places it.bare_nodes };
}

impl<'t> UnitTable<'t> {
    /// The table of a tree and the codes of its `seq` modules, one for each in their order.
    pub fn new(
        alloc: Global,
        tree: &'t Tree,
        codes: List<SafeCode>,
    ) -> Result<UnitTable<'t>, NoMemory>
        requires lawful { IsLawfulTree tree.now }
        requires codes { All (HasCode (record { tree = tree.now; codes = codes })) tree.now.nodes }
        ensures { IfGiven result (λ table. table ≡ record { tree = tree.now; codes = codes }) }
    {
        let places = code_places(alloc, tree)?;
        let codes = executables(alloc, codes)?;
        let bare_nodes = bare_nodes(alloc, tree, places.as_slice(), codes.as_slice())?;
        Ok(UnitTable {
            tree,
            codes,
            places,
            bare_nodes,
        })
    }

    /// The tree that the table serves.
    pub fn tree(&self) -> &Tree
        ensures tree { result.now ≡ self.now.tree }
        ensures lawful { IsLawfulTree result.now }
    {
        self.tree
    }

    /// The code of a `seq` node that runs in registers and whose module rescues no trap, and that
    /// module: a run of the code is all that such a node does.
    #[inline(always)]
    pub(crate) fn bare_code(&self, node: u32) -> Option<(&RegisterCode, u32)>
        requires { node < length self.now.tree.nodes }
        ensures { IfSome result (λ bare. DoesNode self.now node bare.0.now bare.1) }
    {
        let bare = self.bare_nodes.as_slice()[node as usize]?;
        let code = self.codes.as_slice()[bare.place as usize].in_registers()?;
        Some((code, bare.module))
    }

    /// Runs the code of a `seq` node.
    pub fn run_body(&self, alloc: Global, node: u32, words: &Words) -> Result<Outcome, NoMemory>
        requires there { node < length self.now.tree.nodes }
        requires form { (node_at self.now.tree node).form ≡ forms.Seq }
        requires fits { length words.now ≡ (node_at self.now.tree node).ins }
        ensures { IfGiven result (λ outcome. outcome
            ≡ leaf self.now (node_at self.now.tree node).«module» words.now) }
    {
        let Some(found) = self.tree.node(node) else {
            unreachable!();
        };
        let code = self.code_of(node, found.module);
        code.run(alloc, found.module, words)
    }

    // The code of a `seq` node of this module.
    #[inline(always)]
    fn code_of(&self, node: u32, module: u32) -> &Executable
        requires there { node < length self.now.tree.nodes }
        requires form { (node_at self.now.tree node).form ≡ forms.Seq }
        requires own { «module» ≡ (node_at self.now.tree node).«module» }
        ensures { code_of self.now (node_at self.now.tree node).«module» ≡ Some result.now }
    {
        let place = self.places.as_slice()[module as usize];
        &self.codes.as_slice()[place as usize]
    }
}

// The codes, each made ready to run.
fn executables(alloc: Global, codes: List<SafeCode>) -> Result<List<Executable>, NoMemory>
    ensures { IfGiven result (λ executables. executables ≡ codes) }
{
    let mut executables = List::new(alloc);
    for code in codes.into_vec() {
        executables.push(Executable::new(alloc, code)?)?;
    }
    Ok(executables)
}

// For each module, how many `seq` modules are before it.
fn code_places(alloc: Global, tree: &Tree) -> Result<List<u32>, NoMemory>
    requires { IsLawfulTree tree.now }
    ensures { IfGiven result (HasPlaces tree.now.modules) }
{
    let mut places = List::new(alloc);
    let mut before = 0;
    for info in tree.modules.as_slice() {
        places.push(before)?;
        before += one_if_seq(info.kind);
    }
    Ok(places)
}

// For each node, the code that does all of its work in registers, if one does.
fn bare_nodes(
    alloc: Global,
    tree: &Tree,
    places: &[u32],
    codes: &[Executable],
) -> Result<List<Option<BareNode>>, NoMemory>
    requires { ArePlaced tree.now codes.now places.now }
    ensures { IfGiven result (HasBareNodes (record { tree = tree.now; codes = codes.now })) }
{
    let mut bare_nodes = List::new(alloc);
    for node in 0..tree.nodes.len() {
        bare_nodes.push(bare_node(tree, places, codes, node))?;
    }
    Ok(bare_nodes)
}

// The code that does all of a node's work in registers, if one does.
fn bare_node(tree: &Tree, places: &[u32], codes: &[Executable], node: usize) -> Option<BareNode>
    requires placed { ArePlaced tree.now codes.now places.now }
    requires there { node < length tree.now.nodes }
    ensures { IfSome result (IsBareNode (record { tree = tree.now; codes = codes.now }) node) }
{
    let found = &tree.nodes.as_slice()[node];
    let Form::Seq = found.form else {
        return None;
    };
    if tree.rescue_of(found.module).is_some() {
        return None;
    }
    let place = places[found.module as usize];
    if !codes[place as usize].is_in_registers() {
        return None;
    }
    Some(BareNode {
        place,
        module: found.module,
    })
}

// 1 for a `seq` module, else 0.
fn one_if_seq(kind: ModuleKind) -> u32
    ensures { result ≡ one_if_seq kind }
{
    match kind {
        ModuleKind::Seq => 1,
        _ => 0,
    }
}

/// A law of the codes of a tree: on the words that it takes, the code of a `seq` node makes of them
/// what the machine makes of them.
pub fn leaves_are_runs()
    ensures { LeavesAreRuns }
{}
