//! What is at a path of a tree, and the classes on the way to it.
ghost use Rattle.std.specs.Prelude.{◌≡◌, ◌++◌, IfOk, map, OnOk};
ghost use Rattle.std.specs.Option.{option_copied};
ghost use Rattle.histar_secrecy.specs.ShownRoles.{flat_class};
ghost use Rattle.histar_trust.specs.Findings.{class_flat, class_there, classes_to, next_way, node_at, place_there, places_to};

use crate::members::numbers;
use histar_flat::{Name, Path};
use histar_layout::Class;
use histar_readout::TreeNode;
use histar_secrecy::FileClass;
use std::alloc::{AllocError, Global};

/// Returns what a tree has at the path of these names, of which the last comes first.
pub fn node_at<'a>(tree: &'a [TreeNode], names: &[Name]) -> Option<&'a TreeNode>
    ensures { option_copied result ≡ node_at names.now tree.now }
{
    for node in tree {
        if names == node.path.names() {
            return Some(node);
        }
    }
    None
}

/// Adds the class of what a tree has at the path of these names, and then that of each directory above.
pub fn push_classes(
    alloc: Global,
    tree: &[TreeNode],
    names: &[Name],
    classes: &mut Vec<FileClass>,
) -> Result<(), AllocError>
    ensures { OnOk result (map flat_class classes.new.items
        ≡ map flat_class classes.old.items ++ classes_to tree.now names.now) }
{
    push_class(alloc, node_at(tree, names), classes)?;
    let [_, above @ ..] = names else {
        return Ok(());
    };
    push_classes(alloc, tree, above, classes)
}

/// Adds the path of what a tree has at the path of these names, and then that of each directory above.
pub fn push_places(
    tree: &[TreeNode],
    names: &[Name],
    places: &mut Vec<Path>,
) -> Result<(), AllocError>
    ensures { OnOk result (places.new.items ≡ places.old.items ++ places_to tree.now names.now) }
{
    push_place(node_at(tree, names), places)?;
    let [_, above @ ..] = names else {
        return Ok(());
    };
    push_places(tree, above, places)
}

/// Adds the path of a node, if there is one.
fn push_place(there: Option<&TreeNode>, places: &mut Vec<Path>) -> Result<(), AllocError>
    ensures { OnOk result (places.new.items
        ≡ places.old.items ++ place_there (option_copied there.entry)) }
{
    let Some(node) = there else {
        return Ok(());
    };
    Ok(places.push(node.path)?)
}

/// Goes on from the way to one node of a tree to that of the next one: it leaves the classes of the directories
/// above it, and adds its own.
pub fn go_on(alloc: Global, way: &mut Vec<FileClass>, node: &TreeNode) -> Result<(), AllocError>
    ensures { OnOk result (map flat_class way.new.items
        ≡ next_way (map flat_class way.old.items) node.now) }
{
    way.truncate(node.path.depth());
    let class = file_class(alloc, &node.class)?;
    Ok(way.push(class)?)
}

/// Adds the class of a node, if there is one.
fn push_class(
    alloc: Global,
    there: Option<&TreeNode>,
    classes: &mut Vec<FileClass>,
) -> Result<(), AllocError>
    ensures { OnOk result (map flat_class classes.new.items
        ≡ map flat_class classes.old.items ++ class_there (option_copied there.entry)) }
{
    let Some(node) = there else {
        return Ok(());
    };
    let class = file_class(alloc, &node.class)?;
    Ok(classes.push(class)?)
}

/// Returns a class, with each of its jobs by the number of its category.
fn file_class(alloc: Global, class: &Class) -> Result<FileClass, AllocError>
    ensures { IfOk result (λ of_file. flat_class of_file ≡ class_flat class.now) }
{
    Ok(match class {
        Class::Private(owner) => FileClass::Private(*owner),
        Class::Readable(owner) => FileClass::Readable(*owner),
        Class::Open => FileClass::Open,
        Class::Scratch(owner, jobs) => {
            FileClass::Scratch(*owner, numbers(alloc, jobs.as_slice())?)
        }
        Class::Group(group) => FileClass::Grouped(*group),
    })
}
