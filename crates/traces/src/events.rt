ghost use Rattle.std.specs.Prelude.{◌≡◌, ◌++◌, ◌∷◌, [], ℕ, List, codes, OnOk};
ghost use Rattle.std.specs.Fmt.{decimal, signed_decimal};
ghost use Rattle.line_writer.specs.Lines.{line};
ghost use Rattle.sessions.specs.EventViews.{turn_of};
ghost use Rattle.traces.specs.Traces.{item_fields, call_fields, argument_fields, answered_fields, reply_fields, turn_line, told_line};

use gate_core::Told;
use gx_base::{Call, Item, Reply, Room, word_of};
use iterate::{Event, Turn};
use itoa::Buffer;
use line_writer::{Field, put_line};
use std::alloc::AllocError;

/// Adds the line of a turn.
pub(crate) fn put_turn(text: &mut Vec<u8>, turn: &Turn) -> Result<(), AllocError>
    ensures { OnOk result (text.new.items ≡ text.old.items ++ turn_line (turn_of turn.now)) }
{
    let mut digits = Buffer::new();
    let number = digits.format(turn.number);
    match turn.event {
        Event::Take { item } => put_take(text, number, turn.worker, item),
        Event::Call { room, call, reply } => {
            put_call(text, number, turn.worker, room, call, reply)
        }
        Event::Conflict { room, told } => {
            put_asked(text, number, turn.worker, "conflict", room, told.asked)
        }
        Event::Undo { room, call } => put_asked(text, number, turn.worker, "undo", room, call),
        Event::Commit { number: commits } => put_commit(text, number, turn.worker, commits),
        Event::Wait => put_word(text, number, turn.worker, "wait"),
        Event::Drop => put_word(text, number, turn.worker, "drop"),
        Event::Idle => put_word(text, number, turn.worker, "idle"),
        Event::Busy => put_word(text, number, turn.worker, "busy"),
    }
}

fn put_word<'a>(
    text: &mut Vec<u8>,
    number: &'a str,
    worker: u32,
    word: &'a str,
) -> Result<(), AllocError>
    ensures { OnOk result (text.new.items ≡ text.old.items ++ line (codes "t" ∷ number.now ∷ decimal worker ∷ word.now ∷ [])) }
{
    put_line(
        text,
        &[
            Field::Word("t"),
            Field::Word(number),
            Field::Number(i64::from(worker)),
            Field::Word(word),
        ],
    )
}

fn put_take(text: &mut Vec<u8>, number: &str, worker: u32, item: Item) -> Result<(), AllocError>
    ensures { OnOk result (text.new.items ≡ text.old.items ++ line (codes "t" ∷ number.now ∷ decimal worker ∷ codes "take" ∷ item_fields item)) }
{
    put_line(
        text,
        &[
            Field::Word("t"),
            Field::Word(number),
            Field::Number(i64::from(worker)),
            Field::Word("take"),
            Field::Number(item.k0),
            Field::Number(item.k1),
            Field::Number(item.k2),
            Field::Number(item.k3),
        ],
    )
}

fn put_commit(text: &mut Vec<u8>, number: &str, worker: u32, commits: u64) -> Result<(), AllocError>
    ensures { OnOk result (text.new.items ≡ text.old.items ++ line (codes "t" ∷ number.now ∷ decimal worker ∷ codes "commit" ∷ decimal commits ∷ [])) }
{
    let mut digits = Buffer::new();
    put_line(
        text,
        &[
            Field::Word("t"),
            Field::Word(number),
            Field::Number(i64::from(worker)),
            Field::Word("commit"),
            Field::Word(digits.format(commits)),
        ],
    )
}

/// Adds the line of a call that a turn asked or took back.
fn put_asked<'a>(
    text: &mut Vec<u8>,
    number: &'a str,
    worker: u32,
    word: &'a str,
    room: Room,
    call: Call,
) -> Result<(), AllocError>
    ensures { OnOk result (text.new.items ≡ text.old.items ++ line (codes "t" ∷ number.now ∷ decimal worker ∷ word.now ∷ decimal room ∷ call_fields call)) }
{
    put_line(
        text,
        &[
            Field::Word("t"),
            Field::Word(number),
            Field::Number(i64::from(worker)),
            Field::Word(word),
            Field::Number(i64::from(room)),
            Field::Word(word_of(call.method)),
            Field::Number(call.a),
            Field::Number(call.b),
            Field::Number(call.c),
            Field::Number(call.d),
        ],
    )
}

fn put_call(
    text: &mut Vec<u8>,
    number: &str,
    worker: u32,
    room: Room,
    call: Call,
    reply: Reply,
) -> Result<(), AllocError>
    ensures { OnOk result (text.new.items ≡ text.old.items ++ line (codes "t" ∷ number.now ∷ decimal worker ∷ codes "call" ∷ decimal room ∷ answered_fields call reply)) }
{
    put_line(
        text,
        &[
            Field::Word("t"),
            Field::Word(number),
            Field::Number(i64::from(worker)),
            Field::Word("call"),
            Field::Number(i64::from(room)),
            Field::Word(word_of(call.method)),
            Field::Number(call.a),
            Field::Number(call.b),
            Field::Number(call.c),
            Field::Number(call.d),
            Field::Word("->"),
            Field::Number(reply.p),
            Field::Number(reply.q),
            Field::Number(reply.r),
            Field::Number(reply.s),
        ],
    )
}

/// Adds the line that tells the conflict of the turn with this number.
pub(crate) fn put_told(text: &mut Vec<u8>, number: u64, told: &Told) -> Result<(), AllocError>
    ensures { OnOk result (text.new.items ≡ text.old.items ++ told_line number told.now.held told.now.would) }
{
    let mut digits = Buffer::new();
    let mut iter_digits = Buffer::new();
    put_held(
        text,
        digits.format(number),
        i64::from(told.held.worker),
        iter_digits.format(told.held.iter),
        word_of(told.held.call.method),
        told.held.call,
        told.held.reply,
        told.would,
    )
}

/// The same where some of the fields are given as texts.
fn put_held<'a>(
    text: &mut Vec<u8>,
    number: &'a str,
    worker: i64,
    iter: &'a str,
    method: &'a str,
    call: Call,
    reply: Reply,
    would: Reply,
) -> Result<(), AllocError>
    ensures { OnOk result (text.new.items ≡ text.old.items ++ line (codes "u" ∷ number.now ∷ signed_decimal worker ∷ iter.now ∷ (method.now ∷ argument_fields call ++ codes "->" ∷ reply_fields reply ++ codes "would" ∷ reply_fields would))) }
{
    let fields = [
        Field::Word("u"),
        Field::Word(number),
        Field::Number(worker),
        Field::Word(iter),
        Field::Word(method),
        Field::Number(call.a),
        Field::Number(call.b),
        Field::Number(call.c),
        Field::Number(call.d),
        Field::Word("->"),
        Field::Number(reply.p),
        Field::Number(reply.q),
        Field::Number(reply.r),
        Field::Number(reply.s),
        Field::Word("would"),
        Field::Number(would.p),
        Field::Number(would.q),
        Field::Number(would.r),
        Field::Number(would.s),
    ];
    put_line(text, &fields)
}
