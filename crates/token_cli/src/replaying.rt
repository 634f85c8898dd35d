//! Writing what a command tells of a script's events.

ghost use Rattle.std.specs.Prelude.{◌≡◌, ◌≤◌, IfErr, OnOk};
ghost use Rattle.token_cli.specs.inner.Ending.{Writes, each_commit, one_commit, way_of};
ghost use Rattle.token_cli.specs.inner.Edits.{AreEdited, EditsFail};
ghost use Rattle.token_cli.specs.inner.Step.{first_state};
ghost use Rattle.token_cli.specs.inner.View.{workspace_view};
ghost use Rattle.token_cli.specs.Told.{head_line};

use crate::refusal::is_refused;
use crate::stop::Stop;
use crate::telling::Telling;
use crate::workspace::Workspace;
use bumpalo::Bump;
use command_words::Command;
use edit_script::{Events, Line, write_line};
use std::alloc::Global;
use tk_io::Sink;

// The first line of what is told.
fn head_line(telling: Telling) -> Line
    ensures { result ≡ head_line telling }
{
    match telling {
        Telling::Records => Line::StreamHead,
        Telling::Numbers => Line::StatsHead,
    }
}

// Tells each commit of the events, in a workspace that nothing was done in, and says whether a refusal is held at their end.
fn tell_events<'s, K: Sink>(
    alloc: Global,
    telling: Telling,
    events: &Events<'s>,
    arena: &'s Bump,
    workspace: &mut Workspace<'s>,
    out: &mut K,
) -> Result<bool, Stop>
    requires { workspace_view workspace.now ≡ first_state }
    ensures written { Writes result (each_commit telling events.now) events.now
        (K.written out.old) (K.written out.new) (K.faults out.old) (K.faults out.new) }
    ensures later { K.faults out.old ≤ K.faults out.new }
{
    write_line(out, &head_line(telling))?;
    for event in events.as_slice() {
        workspace.take(alloc, telling, event, arena, out)?;
    }
    write_line(out, &Line::Done(workspace.commits))?;
    Ok(is_refused(workspace.engine.held()))
}

// Tells each commit of the events, and says whether a refusal is held at their end.
fn replay<'s, K: Sink>(
    alloc: Global,
    telling: Telling,
    events: &Events<'s>,
    arena: &'s Bump,
    out: &mut K,
) -> Result<bool, Stop>
    ensures written { Writes result (each_commit telling events.now) events.now
        (K.written out.old) (K.written out.new) (K.faults out.old) (K.faults out.new) }
    ensures later { K.faults out.old ≤ K.faults out.new }
{
    let mut workspace = Workspace::new(alloc);
    tell_events(alloc, telling, events, arena, &mut workspace, out)
}

// Takes all events into the files of a workspace that nothing was done in.
fn edit_all<'s>(
    events: &Events<'s>,
    arena: &'s Bump,
    workspace: &mut Workspace<'s>,
) -> Result<(), Stop>
    requires { workspace_view workspace.now ≡ first_state }
    ensures ok { OnOk result (AreEdited events.now (workspace_view workspace.new)) }
    ensures err { IfErr result (λ stop. EditsFail stop events.now) }
{
    for event in events.as_slice() {
        workspace.edit(event, arena)?;
    }
    Ok(())
}

// Tells one commit at the end of the events, in a workspace that nothing was done in, and says whether a refusal is held then.
fn tell_end<'s, K: Sink>(
    alloc: Global,
    events: &Events<'s>,
    arena: &'s Bump,
    workspace: &mut Workspace<'s>,
    out: &mut K,
) -> Result<bool, Stop>
    requires { workspace_view workspace.now ≡ first_state }
    ensures written { Writes result (one_commit events.now) events.now
        (K.written out.old) (K.written out.new) (K.faults out.old) (K.faults out.new) }
    ensures later { K.faults out.old ≤ K.faults out.new }
{
    write_line(out, &Line::StreamHead)?;
    edit_all(events, arena, workspace)?;
    workspace.commit(alloc, Telling::Records, out)?;
    write_line(out, &Line::Done(workspace.commits))?;
    Ok(is_refused(workspace.engine.held()))
}

// Tells one commit at the end of the events, and says whether a refusal is held then.
fn build_at_end<'s, K: Sink>(
    alloc: Global,
    events: &Events<'s>,
    arena: &'s Bump,
    out: &mut K,
) -> Result<bool, Stop>
    ensures written { Writes result (one_commit events.now) events.now
        (K.written out.old) (K.written out.new) (K.faults out.old) (K.faults out.new) }
    ensures later { K.faults out.old ≤ K.faults out.new }
{
    let mut workspace = Workspace::new(alloc);
    tell_end(alloc, events, arena, &mut workspace, out)
}

/// Writes what the command tells of the events, and says whether a refusal is held at their end. Patched texts are made in
/// the arena.
///
/// # Errors
/// `BadEvent` exactly where an event does not fit, once all before it is written. `WriteFault` only where the sink's faults
/// rose; `NoMemory`; a part was written then, and not all.
pub fn write_events<'s, K: Sink>(
    alloc: Global,
    command: Command,
    events: &Events<'s>,
    arena: &'s Bump,
    out: &mut K,
) -> Result<bool, Stop>
    ensures written { Writes result (way_of command events.now) events.now
        (K.written out.old) (K.written out.new) (K.faults out.old) (K.faults out.new) }
    ensures later { K.faults out.old ≤ K.faults out.new }
{
    match command {
        Command::Build => build_at_end(alloc, events, arena, out),
        Command::Replay => replay(alloc, Telling::Records, events, arena, out),
        Command::Stats | Command::Gen(..) => replay(alloc, Telling::Numbers, events, arena, out),
    }
}
