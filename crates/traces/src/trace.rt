ghost use Rattle.std.specs.Prelude.{◌≡◌, ◌++◌, OnOk};
ghost use Rattle.sessions.specs.EventViews.{turn_of, turns_of};
ghost use Rattle.traces.specs.Traces.{if_wanted, told_text, turn_line, turn_text, trace_text};

use crate::events::{put_told, put_turn};
use iterate::{Event, Turn};
use std::alloc::AllocError;

/// Adds the lines of a trace at the end of a text: with `lines` one for each turn, and with `told` one for each conflict,
/// after that of its turn. Where memory runs out, some of them may have been added.
pub fn put_trace(
    text: &mut Vec<u8>,
    trace: &[Turn],
    lines: bool,
    told: bool,
) -> Result<(), AllocError>
    ensures { OnOk result (text.new.items ≡ text.old.items ++ trace_text (record { turns = lines; told = told }) (turns_of trace.now)) }
{
    for turn in trace {
        put_lines(text, turn, lines, told)?;
    }
    Ok(())
}

fn put_lines(text: &mut Vec<u8>, turn: &Turn, lines: bool, told: bool) -> Result<(), AllocError>
    ensures { OnOk result (text.new.items ≡ text.old.items ++ turn_text (record { turns = lines; told = told }) (turn_of turn.now)) }
{
    put_turn_if(text, turn, lines)?;
    put_told_if(text, turn, told)
}

fn put_turn_if(text: &mut Vec<u8>, turn: &Turn, lines: bool) -> Result<(), AllocError>
    ensures { OnOk result (text.new.items ≡ text.old.items ++ if_wanted lines (turn_line (turn_of turn.now))) }
{
    if !lines {
        return Ok(());
    }
    put_turn(text, turn)
}

fn put_told_if(text: &mut Vec<u8>, turn: &Turn, told: bool) -> Result<(), AllocError>
    ensures { OnOk result (text.new.items ≡ text.old.items ++ if_wanted told (told_text turn.now.number (turn_of turn.now).event)) }
{
    match turn.event {
        Event::Conflict { told: conflict, .. } if told => { put_told(text, turn.number, &conflict) }
        _ => Ok(()),
    }
}
