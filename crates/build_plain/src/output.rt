//! Outputs by their paths.

ghost use Rattle.std.specs.Prelude.{◌≡◌, ◌++◌, IfOk, OnOk};
ghost use Rattle.std.specs.FinMap as map;
ghost use Rattle.std.specs.String.{string_bytes};
ghost use Rattle.build_plain.specs.Out.{one_output};

use std::alloc::Global;
use tk_io::{Body, Bytes, NoMemory, Outputs};

/// One output.
pub(crate) fn one_output(alloc: Global, path: &str, body: Bytes) -> Result<Outputs, NoMemory>
    ensures { IfOk result (λ o. o ≡ one_output path.now body) }
{
    let mut outputs = Outputs::new(alloc);
    outputs.insert(path, body)?;
    Ok(outputs)
}

// The path of a permutation's file.
fn output_path(alloc: Global, name: &str, file: &str) -> Result<String, NoMemory>
    ensures { IfOk result (λ path. string_bytes path ≡ name.now ++ file.now) }
{
    let mut path = String::from_str(alloc, name)?;
    path.push_str(file)?;
    Ok(path)
}

/// Puts a file of the permutation beside the outputs. The file is told with the `/` before it.
pub(crate) fn put_output(
    alloc: Global,
    name: &str,
    file: &str,
    body: Bytes,
    outputs: &mut Outputs,
) -> Result<(), NoMemory>
    ensures { OnOk result (outputs.new ≡ map.insert outputs.old (name.now ++ file.now) body) }
{
    let body = Body::new(body)?;
    put_shared(alloc, name, file, body, outputs)
}

/// The same of a file that may be held elsewhere too.
pub(crate) fn put_shared(
    alloc: Global,
    name: &str,
    file: &str,
    body: Body,
    outputs: &mut Outputs,
) -> Result<(), NoMemory>
    ensures { OnOk result (outputs.new ≡ map.insert outputs.old (name.now ++ file.now) body) }
{
    let path = output_path(alloc, name, file)?;
    outputs.insert_shared(path.as_str(), body)
}
