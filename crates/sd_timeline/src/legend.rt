//! The legend: what the forms, lines and numbers of a picture mean, as far as they are drawn.

ghost use Rattle.std.specs.Prelude.{◌≡◌, ◌<◌, ◌^◌, ◌++◌, ◌∷◌, ◌&&◌, [], IfOk, OnOk, filter, not, if◌then◌else◌};
ghost use Rattle.std.specs.List.{list_any};
ghost use Rattle.sd_timeline.specs.Arrows.{is_drawn_wake};
ghost use Rattle.sd_timeline.specs.Held.{is_shown_hold};
ghost use Rattle.sd_timeline.specs.Moments.{is_moment};
ghost use Rattle.sd_timeline.specs.Legend.{Drawn as DrawnValue, box_key, class_of, does, drawn_of, has_bar, is_on_cpu, key_at, key_box, key_drop, key_height, key_line, key_text, key_words, keys_of, keys_text, length_of, line_key, lines_of, occurs, sample_class, sample_key, sample_of, shape_of, shows_number, slot_x, slot_y, word_key, words_of};

use crate::arrows::{drawn_hands, has_row, is_drawn_wake};
use crate::bars::has_number;
use crate::held::is_shown_hold;
use crate::labels::labelled;
use crate::moments::{drawn_pieces, is_moment};
use crate::parts::{Part, put_parts};
use crate::pieces::{put_bar_start, put_path_start, put_word_label};
use sd_holds::Hold;
use sd_layout::Layout;
use sd_stretches::{ByThread, Doing, HandOver, Level, Stretch, Wakeup};
use sd_types::Work;
use std::alloc::{AllocError, Global};
use std::marker::Model;

/// What the legend explains.
#[derive(Clone, Copy)]
pub(crate) enum Key {
    Running,
    Spinning,
    Runnable,
    Waiting,
    Asleep,
    Napping,
    Ended,
    Number,
    Held,
    Own,
    Inherited,
    HandOver,
    Wake,
    Moment,
    Fold,
}

/// How it looks: a box, a box with a word on it, an upright line, or a word as it stands above bars.
#[derive(Clone, Copy)]
pub(crate) enum Shape {
    Box,
    Sample,
    Line,
    Word,
}

const KEYS: [Key; 15] = [
    Key::Running,
    Key::Spinning,
    Key::Runnable,
    Key::Waiting,
    Key::Asleep,
    Key::Napping,
    Key::Ended,
    Key::Number,
    Key::Held,
    Key::Own,
    Key::Inherited,
    Key::HandOver,
    Key::Wake,
    Key::Moment,
    Key::Fold,
];

/// What is drawn of a run: the parts of it that have a bar or a mark, the holds of locks, the arrows to owners, and the priorities that
/// are written.
#[derive(Drop)]
pub(crate) struct Drawn {
    pub(crate) pieces: Vec<Stretch>,
    pub(crate) holds: Vec<Hold>,
    pub(crate) hand_overs: Vec<HandOver>,
    pub(crate) levels: Vec<Level>,
}

impl Model for Drawn {
    ghost Value = { DrawnValue };

    ghost view = { λ d. record { pieces = d.pieces.items; holds = d.holds.items; hand_overs = d.hand_overs.items; levels = d.levels.items } };
}

/// What is drawn of a run of the workload, with these holds.
pub(crate) fn drawn_of(
    alloc: Global,
    work: &Work,
    layout: &Layout,
    history: &ByThread,
    holds: Vec<Hold>,
) -> Result<Drawn, AllocError>
    ensures { IfOk result (λ drawn. drawn ≡ drawn_of work.now layout.now history.now holds.items) }
{
    let pieces = drawn_pieces(alloc, work, layout, history)?;
    let hand_overs = drawn_hands(alloc, layout, &history.history)?;
    let levels = labelled(alloc, work, layout, history)?;
    Ok(Drawn {
        pieces,
        holds,
        hand_overs,
        levels,
    })
}

fn shape_of(key: Key) -> Shape
    ensures { result ≡ shape_of key }
{
    match key {
        Key::Number | Key::Held => Shape::Sample,
        Key::Moment | Key::Wake | Key::HandOver => Shape::Line,
        Key::Own | Key::Inherited => Shape::Word,
        _ => Shape::Box,
    }
}

fn class_of(key: Key) -> &'static [u8]
    ensures { result.now ≡ class_of key }
{
    match key {
        Key::Running => b"run blue",
        Key::Spinning => b"blue-stripes",
        Key::Runnable => b"ready",
        Key::Waiting => b"wait",
        Key::Asleep => b"sleep",
        Key::Napping => b"nap",
        Key::Ended => b"end",
        Key::Number => b"run blue",
        Key::Held => b"hold",
        Key::Moment => b"moment",
        Key::Wake => b"wake",
        Key::HandOver => b"will",
        Key::Own => b"own",
        Key::Inherited => b"inherited",
        Key::Fold => b"gap",
    }
}

fn words_of(key: Key) -> &'static [u8]
    ensures { result.now ≡ words_of key }
{
    match key {
        Key::Running => b"runs (a colour for each thread)",
        Key::Spinning => b"spins for a lock",
        Key::Runnable => b"ready, on a queue",
        Key::Waiting => b"waits for a lock",
        Key::Asleep => b"sleeps on a channel",
        Key::Napping => b"naps",
        Key::Ended => b"has ended",
        Key::Number => b"runs on processor 0",
        Key::Held => b"holds lock m",
        Key::Moment => b"runs for less than a tick",
        Key::Wake => b"wakes a thread",
        Key::HandOver => b"hands its priority on",
        Key::Own => b"priority 29",
        Key::Inherited => b"inherited priority 110",
        Key::Fold => b"nothing changes in these ticks",
    }
}

// The word that is shown as an example.
fn sample_of(key: Key) -> &'static [u8]
    ensures { result.now ≡ sample_of key }
{
    match key {
        Key::Number => b"0",
        Key::Held => b"m",
        Key::Own => b"29",
        Key::Inherited => b"&#9650;110",
        _ => b"",
    }
}

fn sample_class(key: Key) -> &'static [u8]
    ensures { result.now ≡ sample_class key }
{
    match key {
        Key::Number => b"on",
        _ => b"held",
    }
}

// How far the box lies below the top of its line.
fn key_drop(key: Key) -> u64
    ensures value { result ≡ key_drop key }
    ensures bound { result < 10 }
{
    match key {
        Key::Runnable => 5,
        Key::Waiting => 1,
        Key::Asleep | Key::Napping => 8,
        Key::Ended => 9,
        Key::Held => 2,
        _ => 0,
    }
}

// Its height, which is that of the bars of the picture.
fn key_height(key: Key) -> u64
    ensures { result ≡ key_height key }
{
    match key {
        Key::Runnable => 8,
        Key::Waiting => 16,
        Key::Asleep | Key::Napping => 3,
        Key::Ended => 1,
        Key::Held => 13,
        _ => 18,
    }
}

// It is what the key explains.
fn does(key: Key, doing: Doing) -> bool
    ensures { result ≡ does key doing }
{
    matches!(
        (key, doing),
        (Key::Running, Doing::Running(_))
            | (Key::Spinning, Doing::Spinning(_, _))
            | (Key::Runnable, Doing::Runnable)
            | (Key::Waiting, Doing::Waiting(_))
            | (Key::Asleep, Doing::Asleep(_))
            | (Key::Napping, Doing::Napping)
            | (Key::Ended, Doing::Ended)
    )
}

// On a processor, so that it has a bar in the row of that too.
fn is_on_cpu(doing: Doing) -> bool
    ensures { result ≡ is_on_cpu doing }
{
    matches!(doing, Doing::Running(_) | Doing::Spinning(_, _))
}

fn length_of(layout: &Layout, x: &Stretch) -> u64
    ensures { result ≡ length_of layout.now x.now }
{
    layout.width(x.from, x.to)
}

// The piece has a bar: in the row of its processor, or in its thread's, if it has one.
fn has_bar(layout: &Layout, x: &Stretch) -> bool
    ensures { result ≡ has_bar layout.now x.now }
{
    length_of(layout, x) != 0 && (is_on_cpu(x.doing) || has_row(layout, x.thread))
}

// The number of a processor stands on a bar of the piece.
fn shows_number(layout: &Layout, x: &Stretch) -> bool
    ensures { result ≡ shows_number layout.now x.now }
{
    has_row(layout, x.thread) && has_number(length_of(layout, x), x.doing)
}

fn any_does(key: Key, layout: &Layout, pieces: &[Stretch]) -> bool
    ensures { result ≡ list_any (λ x. does key x.doing && has_bar layout.now x) pieces.now }
{
    pieces
        .iter()
        .any(|x| does(key, x.doing) && has_bar(layout, x))
}

fn any_number(layout: &Layout, pieces: &[Stretch]) -> bool
    ensures { result ≡ list_any (shows_number layout.now) pieces.now }
{
    pieces.iter().any(|x| shows_number(layout, x))
}

fn any_hold(layout: &Layout, holds: &[Hold]) -> bool
    ensures { result ≡ list_any (is_shown_hold layout.now) holds.now }
{
    holds.iter().any(|x| is_shown_hold(layout, x))
}

fn any_moment(layout: &Layout, pieces: &[Stretch]) -> bool
    ensures { result ≡ list_any (is_moment layout.now) pieces.now }
{
    pieces.iter().any(|x| is_moment(layout, x))
}

fn any_wakeup(layout: &Layout, wakeups: &[Wakeup]) -> bool
    ensures { result ≡ list_any (is_drawn_wake layout.now) wakeups.now }
{
    wakeups.iter().any(|x| is_drawn_wake(layout, x))
}

fn any_own(levels: &[Level]) -> bool
    ensures { result ≡ list_any (λ x. not x.inherited) levels.now }
{
    levels.iter().any(|x| !x.inherited)
}

fn any_inherited(levels: &[Level]) -> bool
    ensures { result ≡ list_any (λ x. x.inherited) levels.now }
{
    levels.iter().any(|x| x.inherited)
}

// What the key explains is drawn.
fn occurs(layout: &Layout, history: &ByThread, drawn: &Drawn, key: Key) -> bool
    ensures { result ≡ occurs layout.now history.now drawn.now key }
{
    match key {
        Key::Number => any_number(layout, &drawn.pieces),
        Key::Held => any_hold(layout, &drawn.holds),
        Key::Moment => any_moment(layout, &drawn.pieces),
        Key::Wake => any_wakeup(layout, &history.history.wakeups),
        Key::HandOver => !drawn.hand_overs.is_empty(),
        Key::Own => any_own(&drawn.levels),
        Key::Inherited => any_inherited(&drawn.levels),
        Key::Fold => !layout.folds.is_empty(),
        _ => any_does(key, layout, &drawn.pieces),
    }
}

fn push_key(
    layout: &Layout,
    history: &ByThread,
    drawn: &Drawn,
    key: Key,
    keys: &mut Vec<Key>,
) -> Result<(), AllocError>
    ensures { OnOk result (keys.new.items ≡ keys.old.items ++ (if occurs layout.now history.now drawn.now key then key ∷ [] else [])) }
{
    if occurs(layout, history, drawn, key) {
        keys.push(key)?;
    }
    Ok(())
}

fn push_keys(
    layout: &Layout,
    history: &ByThread,
    drawn: &Drawn,
    all: &[Key],
    keys: &mut Vec<Key>,
) -> Result<(), AllocError>
    ensures { OnOk result (keys.new.items ≡ keys.old.items ++ filter (occurs layout.now history.now drawn.now) all.now) }
{
    for key in all {
        push_key(layout, history, drawn, *key, keys)?;
    }
    Ok(())
}

/// The keys of the legend of a picture of the run.
#[tactic(auto, unfolding(crate::specs::Legend::keys_of))]
pub(crate) fn keys_of(
    alloc: Global,
    layout: &Layout,
    history: &ByThread,
    drawn: &Drawn,
) -> Result<Vec<Key>, AllocError>
    ensures { IfOk result (λ v. v.items ≡ keys_of layout.now history.now drawn.now) }
{
    let mut keys = Vec::new(alloc);
    push_keys(layout, history, drawn, &KEYS, &mut keys)?;
    Ok(keys)
}

/// How many lines they take: four stand in a line.
pub(crate) fn lines_of(keys: &[Key]) -> u64
    ensures value { result ≡ lines_of keys.now }
    ensures bound { result < 6 }
{
    (keys.len() as u64 % 20 + 3) / 4
}

// The place of the key of this number, under the rows.
fn slot_x(n: usize) -> u64
    ensures value { result ≡ slot_x n }
    ensures bound { result < 1000 }
{
    20 + 255 * (n as u64 % 4)
}

fn slot_y(layout: &Layout, n: usize) -> u64
    ensures value { result ≡ slot_y layout.now n }
    ensures bound { result < 2 ^ 56 }
{
    layout.bottom() + 30 + 24 * (n as u64 % 20 / 4)
}

fn put_key_words(x: u64, y: u64, words: &[u8], out: &mut Vec<u8>) -> Result<(), AllocError>
    requires x { x < 1000 }
    requires y { y < 2 ^ 56 }
    ensures { OnOk result (out.new.items ≡ out.old.items ++ key_words x y words.now) }
{
    put_word_label(b"key", x + 44, y + 13, words, out)
}

#[tactic(auto, unfolding(crate::specs::Legend::key_box))]
fn put_key_box(
    class: &[u8],
    x: u64,
    y: u64,
    height: u64,
    words: &[u8],
    out: &mut Vec<u8>,
) -> Result<(), AllocError>
    ensures { OnOk result (out.new.items ≡ out.old.items ++ key_box class.now x y height words.now) }
{
    put_bar_start(class, x, y, 34, height, out)?;
    put_parts(&[Part::Text(words), Part::Text(b"</title></rect>\n")], out)
}

#[tactic(auto, unfolding(crate::specs::Legend::box_key))]
fn put_box_key(key: Key, x: u64, y: u64, out: &mut Vec<u8>) -> Result<(), AllocError>
    requires x { x < 1000 }
    requires y { y < 2 ^ 56 }
    ensures { OnOk result (out.new.items ≡ out.old.items ++ box_key key x y) }
{
    let words = words_of(key);
    let top = y + key_drop(key);
    put_key_box(class_of(key), x, top, key_height(key), words, out)?;
    put_key_words(x, y, words, out)
}

// A box with a word on it, and its meaning.
#[tactic(auto, unfolding(crate::specs::Legend::sample_key))]
fn put_sample_key(key: Key, x: u64, y: u64, out: &mut Vec<u8>) -> Result<(), AllocError>
    requires x { x < 1000 }
    requires y { y < 2 ^ 56 }
    ensures { OnOk result (out.new.items ≡ out.old.items ++ sample_key key x y) }
{
    put_box_key(key, x, y, out)?;
    put_word_label(sample_class(key), x + 6, y + 13, sample_of(key), out)
}

#[tactic(auto, unfolding(crate::specs::Legend::key_line))]
fn put_key_line(
    class: &[u8],
    x: u64,
    heights: (u64, u64),
    words: &[u8],
    out: &mut Vec<u8>,
) -> Result<(), AllocError>
    ensures { OnOk result (out.new.items ≡ out.old.items ++ key_line class.now x heights words.now) }
{
    put_path_start(class, x, heights, out)?;
    put_parts(&[Part::Text(words), Part::Text(b"</title></path>\n")], out)
}

#[tactic(auto, unfolding(crate::specs::Legend::line_key))]
fn put_line_key(key: Key, x: u64, y: u64, out: &mut Vec<u8>) -> Result<(), AllocError>
    requires x { x < 1000 }
    requires y { y < 2 ^ 56 }
    ensures { OnOk result (out.new.items ≡ out.old.items ++ line_key key x y) }
{
    let words = words_of(key);
    put_key_line(class_of(key), x + 16, (y, y + 18), words, out)?;
    put_key_words(x, y, words, out)
}

// A word as it stands in the picture, and its meaning.
#[tactic(auto, unfolding(crate::specs::Legend::word_key))]
fn put_word_key(key: Key, x: u64, y: u64, out: &mut Vec<u8>) -> Result<(), AllocError>
    requires x { x < 1000 }
    requires y { y < 2 ^ 56 }
    ensures { OnOk result (out.new.items ≡ out.old.items ++ word_key key x y) }
{
    put_word_label(class_of(key), x, y + 13, sample_of(key), out)?;
    put_key_words(x, y, words_of(key), out)
}

fn put_key(key: Key, x: u64, y: u64, out: &mut Vec<u8>) -> Result<(), AllocError>
    requires x { x < 1000 }
    requires y { y < 2 ^ 56 }
    ensures { OnOk result (out.new.items ≡ out.old.items ++ key_text key x y (shape_of key)) }
{
    match shape_of(key) {
        Shape::Box => put_box_key(key, x, y, out),
        Shape::Sample => put_sample_key(key, x, y, out),
        Shape::Line => put_line_key(key, x, y, out),
        Shape::Word => put_word_key(key, x, y, out),
    }
}

fn put_key_at(layout: &Layout, keys: &[Key], n: usize, out: &mut Vec<u8>) -> Result<(), AllocError>
    ensures { OnOk result (out.new.items ≡ out.old.items ++ key_at layout.now keys.now n) }
{
    match keys.get(n) {
        Some(key) => put_key(*key, slot_x(n), slot_y(layout, n), out),
        None => Ok(()),
    }
}

/// The legend with these keys.
pub(crate) fn put_keys(layout: &Layout, keys: &[Key], out: &mut Vec<u8>) -> Result<(), AllocError>
    ensures { OnOk result (out.new.items ≡ out.old.items ++ keys_text layout.now keys.now) }
{
    for n in 0..keys.len() {
        put_key_at(layout, keys, n, out)?;
    }
    Ok(())
}
