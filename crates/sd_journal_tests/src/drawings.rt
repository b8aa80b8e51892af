//! The drawings of a run of three entries, and parts of the picture of one with a lock, worked out by hand.

use crate::given::{Judged, judge};
use arrayvec::ArrayVec;
use sd_story::Selection;
use sd_types::Work;
use sd_viewer::{Drawing, draw};
use std::alloc::Global;

pub(crate) const WORKLOAD: &[u8] = b"limit 1\nthread a ts 29 0 0\n";

const JOURNAL: &[u8] =
    b"0 c0 dispatch a 29\n1 c0 done a\n2 c0 idle\naccounts\nthread a ticks 0 dispatches 1 preempts 0 wakes 0 ended\ncpu 0 ticks 1 idle 1\n";

const TRACE: &[u8] = b"{\"displayTimeUnit\":\"ms\",\"traceEvents\":[
{\"name\":\"process_name\",\"ph\":\"M\",\"pid\":1,\"args\":{\"name\":\"processors\"}},
{\"name\":\"process_name\",\"ph\":\"M\",\"pid\":2,\"args\":{\"name\":\"threads\"}},
{\"name\":\"thread_name\",\"ph\":\"M\",\"pid\":1,\"tid\":11,\"args\":{\"name\":\"processor 0\"}},
{\"name\":\"thread_sort_index\",\"ph\":\"M\",\"pid\":1,\"tid\":11,\"args\":{\"sort_index\":11}},
{\"name\":\"a\",\"cat\":\"run\",\"ph\":\"X\",\"ts\":0,\"pid\":1,\"tid\":11,\"dur\":0,\"args\":{\"class\":\"ts\",\"priority\":29,\"first entry\":1,\"last entry\":1}},
{\"name\":\"thread_name\",\"ph\":\"M\",\"pid\":2,\"tid\":101,\"args\":{\"name\":\"a\"}},
{\"name\":\"thread_sort_index\",\"ph\":\"M\",\"pid\":2,\"tid\":101,\"args\":{\"sort_index\":101}},
{\"name\":\"runnable\",\"cat\":\"state\",\"ph\":\"X\",\"ts\":0,\"pid\":2,\"tid\":101,\"dur\":0,\"args\":{\"class\":\"ts\",\"priority\":29,\"first entry\":0,\"last entry\":0}},
{\"name\":\"runs on processor 0\",\"cat\":\"state\",\"ph\":\"X\",\"ts\":0,\"pid\":2,\"tid\":101,\"dur\":0,\"args\":{\"class\":\"ts\",\"priority\":29,\"first entry\":1,\"last entry\":1}},
{\"name\":\"has ended\",\"cat\":\"state\",\"ph\":\"X\",\"ts\":0,\"pid\":2,\"tid\":101,\"dur\":10000,\"args\":{\"class\":\"ts\",\"priority\":29,\"first entry\":2,\"last entry\":3}},
{\"name\":\"runnable\",\"ph\":\"C\",\"pid\":1,\"ts\":0,\"args\":{\"threads\":1}},
{\"name\":\"runnable\",\"ph\":\"C\",\"pid\":1,\"ts\":0,\"args\":{\"threads\":0}}
]}
";

/// A part of the text of a drawing, or the whole of it.
#[derive(Clone, Copy)]
enum Text {
    Part(&'static [u8]),
    Whole(&'static [u8]),
}

fn has_part(found: &[u8], part: &[u8]) -> bool {
    for i in 0..found.len() {
        if found[i..].starts_with(part) {
            return true;
        }
    }
    false
}

fn has(found: &[u8], text: Text) -> bool {
    match text {
        Text::Part(part) => has_part(found, part),
        Text::Whole(text) => found == text,
    }
}

/// The drawing of the run with this journal has this text.
fn is_drawn_of(alloc: Global, work: &Work, journal: &[u8], drawing: &Drawing, text: Text) -> bool {
    if journal.len() >= 1000 {
        return false;
    }
    match draw(alloc, work, &None, journal, drawing) {
        Ok(found) => has(&found, text),
        Err(_) => false,
    }
}

fn is_drawn(alloc: Global, work: &Work, drawing: &Drawing, text: Text) -> bool {
    is_drawn_of(alloc, work, JOURNAL, drawing, text)
}

// Thread a ends within tick 0. With one processor the row of the thread begins at 102, and a tick is 100 pixels long.
const ENDED: &[u8] =
    b"<rect class=\"end\" x=\"150\" y=\"111\" width=\"100\" height=\"1\"><title>a: has ended, ticks 0 to 1, priority 29, entries 2 to 3</title></rect>
<rect class=\"stop\" x=\"150\" y=\"106\" width=\"2\" height=\"10\"/>
<rect class=\"plate\" x=\"153\" y=\"104\" width=\"46\" height=\"14\"/>
<text class=\"note\" x=\"156\" y=\"115\">ended</text>
";

/// The first drawing that is another.
pub(crate) fn wrong_drawing(alloc: Global, work: &Work) -> Option<&'static str> {
    if !is_drawn(alloc, work, &Drawing::Trace, Text::Whole(TRACE)) {
        return Some("the trace");
    }
    let picture = Drawing::Timeline { from: 0, to: 9 };
    if !is_drawn(alloc, work, &picture, Text::Part(ENDED)) {
        return Some("the picture");
    }
    let late = Drawing::Timeline { from: 1, to: 9 };
    if !is_drawn(alloc, work, &late, Text::Whole(b"")) {
        return Some("a picture of no ticks");
    }
    None
}

#[test]
fn a_run_is_drawn(rt: HostRuntime) {
    judge(&rt, Judged::Drawings);
}

/// Thread a holds m while it runs for two ticks of five.
pub(crate) const LOCKED: &[u8] =
    b"limit 5\nmutex m\nthread a ts 29 0 0\nscript a\nenter m\nrun 2\nexit m\nend\n";

const LOCKED_JOURNAL: &[u8] = b"0 c0 dispatch a 29
1 c0 enter a m
2 c0 tick a
3 c0 tick a
4 c0 exit a m
5 c0 done a
6 c0 idle
7 c0 idle
8 c0 idle
accounts
thread a ticks 2 dispatches 1 preempts 0 wakes 0 ended
cpu 0 ticks 5 idle 3
";

// The lane lies 20 below the top of the bars of its row, which is 102.
const BAND: &[u8] =
    b"<rect class=\"hold\" x=\"150\" y=\"122\" width=\"200\" height=\"13\"><title>a holds m, ticks 0 to 2, from entry 1</title></rect>
<text class=\"held\" x=\"156\" y=\"133\">m</text>
";

const RUN: &[u8] =
    b"<rect class=\"run blue\" x=\"150\" y=\"102\" width=\"200\" height=\"18\"><title>a: runs on processor 0, ticks 0 to 2, priority 29, entries 1 to 5</title></rect>
<rect class=\"blue\" x=\"153\" y=\"104\" width=\"54\" height=\"14\"/>
<text class=\"on\" x=\"156\" y=\"115\">cpu 0</text>
";

/// The first part of the picture that is another. All ticks are asked for, so it is cut one behind the last event, at tick 2.
pub(crate) fn wrong_picture(alloc: Global, work: &Work) -> Option<&'static str> {
    let all = Drawing::Timeline {
        from: 0,
        to: 100_000,
    };
    let cut = b"<desc>ticks 0 to 3 of 5, 100 in a second</desc>";
    if !is_drawn_of(alloc, work, LOCKED_JOURNAL, &all, Text::Part(cut)) {
        return Some("the cut");
    }
    if !is_drawn_of(alloc, work, LOCKED_JOURNAL, &all, Text::Part(BAND)) {
        return Some("the band of the lock");
    }
    if !is_drawn_of(alloc, work, LOCKED_JOURNAL, &all, Text::Part(RUN)) {
        return Some("the bar of the thread");
    }
    let asked = Drawing::Timeline { from: 0, to: 5 };
    let whole = b"<desc>ticks 0 to 5 of 5, 100 in a second</desc>";
    if !is_drawn_of(alloc, work, LOCKED_JOURNAL, &asked, Text::Part(whole)) {
        return Some("all ticks that were asked for");
    }
    None
}

#[test]
fn a_lock_is_drawn(rt: HostRuntime) {
    judge(&rt, Judged::Picture);
}

const STORY: &[u8] = b"tick    entry                         what happens
0       0 c0 dispatch a 29            processor 0 dispatches a at priority 29
0       1 c0 done a                   a comes to the end of its script
0       2 c0 idle                     processor 0 has nothing to run
";

const STORY_OF_A: &[u8] = b"tick    entry                         what happens
0       0 c0 dispatch a 29            processor 0 dispatches a at priority 29
0       1 c0 done a                   a comes to the end of its script
";

/// The story of thread a.
fn story_of_a() -> Drawing {
    let mut name = ArrayVec::new();
    name.push(b'a');
    Drawing::Story(Selection::Thread { name })
}

/// The first story that is another.
pub(crate) fn wrong_story(alloc: Global, work: &Work) -> Option<&'static str> {
    let all = Drawing::Story(Selection::Ticks { from: 0, to: 9 });
    if !is_drawn(alloc, work, &all, Text::Whole(STORY)) {
        return Some("the story of all entries");
    }
    if !is_drawn(alloc, work, &story_of_a(), Text::Whole(STORY_OF_A)) {
        return Some("the story of a");
    }
    None
}

#[test]
fn a_run_is_told(rt: HostRuntime) {
    judge(&rt, Judged::Stories);
}
