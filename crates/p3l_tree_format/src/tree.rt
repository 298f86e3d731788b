// Trees and counts as fields.

ghost use Rattle.std.specs.Prelude.{◌≡◌};
ghost use Rattle.p3l_tree_format.specs.Tree.{kind_at, modules_format, node_format, nodes_format, tree_format};
ghost use Rattle.p3l_tree_format.specs.laws.Tree.{lawful_modules, lawful_node, lawful_nodes, lawful_tree};

use crate::form::FormField;
use crate::module::ModuleField;
use crate::number::{InField, IndicesField};
use crate::version::Version;
use p3l_base::limits::{MOST_NODES, MOST_WORDS, MOST_WORKERS};
use p3l_base::{List, NoMemory};
use p3l_format::{
    Field, ListField, ReadError, read_so_many, read_u32_below, read_u32_in, write_each, write_u32,
};
use p3l_skel::{ModuleInfo, ModuleKind, Node, Tree};
use std::alloc::Global;

// The kind of a module, and `seq` where there is no such module.
fn kind_of(modules: &[ModuleInfo], number: u32) -> ModuleKind
    ensures { result ≡ kind_at modules.now number }
{
    match modules.get(number as usize) {
        Some(info) => info.kind,
        None => ModuleKind::Seq,
    }
}

/// A node of these modules, in a tree of this number of nodes.
#[derive(Clone, Copy, Drop)]
pub struct NodeField<'m> {
    pub modules: &'m [ModuleInfo],
    pub nodes: usize,
}

impl<'m> Field for NodeField<'m> {
    type Value = Node;

    ghost format = { λ it. node_format it.modules.now it.nodes };

    ghost lawful = { λ it. lawful_node it.modules.now it.nodes };

    #[tactic(auto, unfolding(crate::specs::Tree::node_format, p3l_format::specs::Format::pair, p3l_format::specs::Format::as_form))]
    fn read<'a>(&self, alloc: Global, bytes: &'a [u8]) -> Result<(Node, &'a [u8]), ReadError> {
        let (module, rest) = read_u32_below(self.modules.len(), bytes)?;
        let (ins, rest) = read_u32_in(1, MOST_WORDS as u32, rest)?;
        let (outs, rest) = read_u32_in(1, MOST_WORDS as u32, rest)?;
        let kind = kind_of(self.modules, module);
        let (form, rest) = FormField { kind }.read(alloc, rest)?;
        let (parts, rest) = IndicesField { limit: self.nodes }.read(alloc, rest)?;
        Ok((
            Node {
                form,
                module,
                ins,
                outs,
                parts,
            },
            rest,
        ))
    }

    #[tactic(auto, unfolding(crate::specs::Tree::node_format, p3l_format::specs::Format::pair, p3l_format::specs::Format::as_form, p3l_format::specs::Format::within))]
    fn write(&self, value: &Node, out: &mut Vec<u8>) -> Result<(), NoMemory> {
        write_u32(value.module, out)?;
        write_u32(value.ins, out)?;
        write_u32(value.outs, out)?;
        let kind = kind_of(self.modules, value.module);
        FormField { kind }.write(&value.form, out)?;
        IndicesField { limit: self.nodes }.write(&value.parts, out)
    }
}

/// The nodes of a tree over these modules.
#[derive(Clone, Copy, Drop)]
pub struct NodesField<'m> {
    pub modules: &'m [ModuleInfo],
}

impl<'m> Field for NodesField<'m> {
    type Value = List<Node>;

    ghost format = { λ it. nodes_format it.modules.now };

    ghost lawful = { λ it. lawful_nodes it.modules.now };

    #[tactic(auto, unfolding(crate::specs::Tree::nodes_format, p3l_format::specs::Format::counted))]
    fn read<'a>(
        &self,
        alloc: Global,
        bytes: &'a [u8],
    ) -> Result<(List<Node>, &'a [u8]), ReadError> {
        let (nodes, rest) = read_u32_in(1, MOST_NODES, bytes)?;
        let item = NodeField {
            modules: self.modules,
            nodes: nodes as usize,
        };
        read_so_many(&item, alloc, nodes, rest)
    }

    #[tactic(auto, unfolding(crate::specs::Tree::nodes_format, p3l_format::specs::Format::counted, p3l_format::specs::Format::within))]
    fn write(&self, value: &List<Node>, out: &mut Vec<u8>) -> Result<(), NoMemory> {
        let nodes = value.len();
        write_u32(nodes as u32, out)?;
        let item = NodeField {
            modules: self.modules,
            nodes,
        };
        write_each(&item, value.as_slice(), out)
    }
}

/// The numbers of workers of a tree.
pub const COUNTS: ListField<InField> = ListField {
    low: 0,
    high: 4_294_967_295,
    item: InField {
        low: 1,
        high: MOST_WORKERS,
    },
};

/// The modules of a tree in a version of images.
#[derive(Clone, Copy, Drop)]
pub struct ModulesField {
    pub version: Version,
}

impl Field for ModulesField {
    type Value = List<ModuleInfo>;

    ghost format = { λ it. modules_format it.version };

    ghost lawful = { λ it. lawful_modules it.version };

    fn read<'a>(
        &self,
        alloc: Global,
        bytes: &'a [u8],
    ) -> Result<(List<ModuleInfo>, &'a [u8]), ReadError> {
        ListField {
            low: 1,
            high: 4_294_967_295,
            item: ModuleField {
                version: self.version,
            },
        }
        .read(alloc, bytes)
    }

    fn write(&self, value: &List<ModuleInfo>, out: &mut Vec<u8>) -> Result<(), NoMemory> {
        ListField {
            low: 1,
            high: 4_294_967_295,
            item: ModuleField {
                version: self.version,
            },
        }
        .write(value, out)
    }
}

/// A tree in a version of images: its modules and its nodes.
#[derive(Clone, Copy, Drop)]
pub struct TreeField {
    pub version: Version,
}

impl Field for TreeField {
    type Value = Tree;

    ghost format = { λ it. tree_format it.version };

    ghost lawful = { λ it. lawful_tree it.version };

    #[tactic(auto, unfolding(crate::specs::Tree::tree_format, p3l_format::specs::Format::pair, p3l_format::specs::Format::as_form))]
    fn read<'a>(&self, alloc: Global, bytes: &'a [u8]) -> Result<(Tree, &'a [u8]), ReadError> {
        let version = self.version;
        let (modules, rest) = ModulesField { version }.read(alloc, bytes)?;
        let field = NodesField {
            modules: modules.as_slice(),
        };
        let (nodes, rest) = field.read(alloc, rest)?;
        Ok((Tree { nodes, modules }, rest))
    }

    #[tactic(auto, unfolding(crate::specs::Tree::tree_format, p3l_format::specs::Format::pair, p3l_format::specs::Format::as_form))]
    fn write(&self, value: &Tree, out: &mut Vec<u8>) -> Result<(), NoMemory> {
        let version = self.version;
        ModulesField { version }.write(&value.modules, out)?;
        let field = NodesField {
            modules: value.modules.as_slice(),
        };
        field.write(&value.nodes, out)
    }
}
