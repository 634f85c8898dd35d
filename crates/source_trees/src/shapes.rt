//! The shapes of all files that are read.

ghost use Rattle.std.specs.Prelude.{◌≡◌, ℕ, List, Some, IfOk, IfSome, OnOk};
ghost use Rattle.std.specs.FinMap as map;
ghost use Rattle.tk_io.specs.FilesData.{FilesData};
ghost use Rattle.file_plan.specs.InUse.{AreAmong};
ghost use Rattle.file_plan.specs.Trees.{IsTreeOf, AreTreesIn};
ghost use Rattle.source_trees.specs.Trees.{AreTreesOfSome, AreShapesAmong, AreShapesIn, IsShapeFor};
ghost use Rattle.source_trees.specs.inner.Shapes.{AddsShapeOf};

use crate::shape::{FileShape, Shapes, shape_of};
use file_plan::{Files, Tree, Trees};
use std::alloc::Global;
use tk_io::NoMemory;

// The shape of the file at the path, where these shapes of files have it, and the text is the one that it had there.
fn known_shape<'a, 's>(
    past: &Files<'s>,
    known: &'a Shapes<'s>,
    path: &str,
    text: &str,
) -> Option<&'a FileShape<'s>>
    requires { AreShapesAmong past.now known.now }
    ensures { IfSome result (λ shape. IsShapeFor path.now text.now shape.now) }
{
    let Some(old) = past.get(path) else {
        return None;
    };
    if old != text {
        return None;
    }
    known.get(path)
}

// The shape of the file at the path, whose text this is, with its tree.
fn shape_since<'s>(
    alloc: Global,
    past: &Files<'s>,
    known: &Shapes<'s>,
    path: &'s str,
    text: &'s str,
    tree: &Tree<'s>,
) -> Result<FileShape<'s>, NoMemory>
    requires past { AreShapesAmong past.now known.now }
    requires tree { IsTreeOf text.now tree.now }
    ensures { IfOk result (IsShapeFor path.entry.now text.entry.now) }
{
    match known_shape(past, known, path, text) {
        Some(shape) => shape.share(),
        None => shape_of(alloc, path, text, tree),
    }
}

// Adds the shape of the file at the path, whose tree this is.
fn add_shape<'s>(
    alloc: Global,
    files: &Files<'s>,
    past: &Files<'s>,
    known: &Shapes<'s>,
    path: &str,
    tree: &Tree<'s>,
    shapes: &mut Shapes<'s>,
) -> Result<(), NoMemory>
    requires past { AreShapesAmong past.now known.now }
    requires tree { (text : List ℕ) → map.get files.now path.now ≡ Some text → IsTreeOf text tree.now }
    ensures { OnOk result
        (AddsShapeOf path.now (map.get files.now path.now) shapes.old shapes.new) }
{
    match files.entry(path) {
        Some((kept, text)) => {
            let shape = shape_since(alloc, past, known, kept, text, tree)?;
            shapes.put(kept, shape)
        }
        None => Ok(()),
    }
}

/// The shapes of the files whose trees these are: groups and tokens, or the first rule that a file breaks. A file whose text
/// is that which it had among the files before keeps its shape, where it is among those that are known of them.
///
/// # Errors
/// `NoMemory`.
pub fn shapes_since<'s>(
    alloc: Global,
    files: &Files<'s>,
    trees: &Trees<'s>,
    past: &Files<'s>,
    known: &Shapes<'s>,
) -> Result<Shapes<'s>, NoMemory>
    requires trees { AreTreesOfSome files.now trees.now }
    requires past { AreShapesAmong past.now known.now }
    ensures { IfOk result (λ shapes. (some : FilesData)
        → AreAmong some files.now → AreTreesIn some trees.now → AreShapesIn some shapes) }
{
    let mut shapes = Shapes::new(alloc);
    for (path, tree) in trees.entries() {
        add_shape(alloc, files, past, known, path.as_str(), tree, &mut shapes)?;
    }
    Ok(shapes)
}

/// The same, where no shape is known.
///
/// # Errors
/// `NoMemory`.
pub fn shapes_of<'s>(
    alloc: Global,
    files: &Files<'s>,
    trees: &Trees<'s>,
) -> Result<Shapes<'s>, NoMemory>
    requires { AreTreesOfSome files.now trees.now }
    ensures { IfOk result (λ shapes. (some : FilesData)
        → AreAmong some files.now → AreTreesIn some trees.now → AreShapesIn some shapes) }
{
    let none = Files::new(alloc);
    let known = Shapes::new(alloc);
    shapes_since(alloc, files, trees, &none, &known)
}
