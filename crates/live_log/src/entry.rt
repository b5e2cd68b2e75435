// Entries.
ghost use Rattle.std.specs.Prelude.{◌≡◌, ◌++◌, OnOk, codes};
ghost use Rattle.std.specs.List.{flat_map};
ghost use Rattle.pcm_text.specs.Names.{state_name};
ghost use Rattle.live_log.specs.Entry.{added_joint, entry_text, link_line, linked_word};
ghost use Rattle.live_log.specs.Log.{entry_line};

use crate::event::{push_answer, push_event, push_script_line, push_told};
use crate::joint::{push_joint, push_room, push_sub};
use floor_rule::{Entry, Joint};
use pcm_base::{Call, ClientId, Dir, Event, State, SubId};
use pcm_text::{push_number, push_text, state_name};
use std::alloc::AllocError;

fn push_state(text: &mut Vec<u8>, state: State) -> Result<(), AllocError>
    ensures { OnOk result (text.new.items ≡ text.old.items ++ (codes " " ++ state_name state)) }
{
    push_text(text, b" ")?;
    push_text(text, state_name(state).as_bytes())
}

fn push_joints(text: &mut Vec<u8>, joints: &[Joint]) -> Result<(), AllocError>
    ensures { OnOk result (text.new.items ≡ text.old.items ++ flat_map added_joint joints.now) }
{
    'joints: for joint in joints {
        push_text(text, b" + ")?;
        push_joint(text, joint)?;
    }
    Ok(())
}

// The line of a link.
fn push_link(
    text: &mut Vec<u8>,
    client: ClientId,
    first: SubId,
    second: SubId,
) -> Result<(), AllocError>
    ensures { OnOk result (text.new.items ≡ text.old.items ++ link_line client first second) }
{
    let event = Event {
        client: Some(client),
        sub: first,
        call: Call::Link(second),
    };
    push_script_line(text, &event, &[])
}

fn linked_word(linked: bool) -> &'static str
    ensures { result.now ≡ linked_word linked }
{
    if linked { "linked" } else { "free" }
}

fn push_entry_text(text: &mut Vec<u8>, dir: Dir, entry: &Entry) -> Result<(), AllocError>
    ensures { OnOk result (text.new.items ≡ text.old.items ++ entry_text dir entry.now) }
{
    match entry {
        Entry::Own {
            event,
            bytes,
            joints,
            reply,
            state,
        } => {
            push_event(text, event, reply, bytes.as_slice())?;
            push_text(text, b" = ")?;
            push_answer(text, dir, event.call, reply, bytes.as_slice())?;
            push_state(text, *state)?;
            push_joints(text, joints.as_slice())
        }
        Entry::Shared(joint) => {
            push_text(text, b"joint ")?;
            push_joint(text, joint)
        }
        Entry::Linkage {
            client,
            first,
            second,
            first_state,
            second_state,
            second_linked,
            reply,
        } => {
            push_link(text, *client, *first, *second)?;
            push_state(text, *first_state)?;
            push_state(text, *second_state)?;
            push_text(text, b" ")?;
            push_text(text, linked_word(*second_linked).as_bytes())?;
            push_text(text, b" = ")?;
            push_told(text, reply, None)
        }
        Entry::Moved { room } => {
            push_text(text, b"moved ")?;
            push_room(text, *room)
        }
    }
}

/// Puts the line of an entry at the end of the text, with its line feed: the substream, the place of the entry in its log
/// from 0, and the entry. The direction of the substream tells which bytes an answer shows. After an error what stands in
/// the text means nothing. This project's own.
pub fn push_entry(
    text: &mut Vec<u8>,
    dir: Dir,
    sub: SubId,
    place: u64,
    entry: &Entry,
) -> Result<(), AllocError>
    ensures { OnOk result (text.new.items ≡ text.old.items ++ entry_line dir sub place entry.now) }
{
    push_sub(text, sub)?;
    push_text(text, b" ")?;
    push_number(text, place)?;
    push_text(text, b" ")?;
    push_entry_text(text, dir, entry)?;
    push_text(text, b"\n")
}
