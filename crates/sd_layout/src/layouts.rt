//! Where things stand in the picture, in its units (pixels, where it is not scaled).

ghost use Rattle.std.specs.Prelude.{◌≡◌, ◌+◌, ◌-◌, ◌*◌, ◌<◌, ◌≤◌, ◌^◌, ◌==◌, length, sum, take};
ghost use Rattle.std.specs.List.{list_any, position};
ghost use Rattle.sd_layout.specs.Layouts.{Layout as LayoutValue, above, across, axes, axis_base, base, beneath, beside, between_rows, bottom, column, cpu_height, cpus_height, depth, floor, gap, inside, is_clear, is_near, landing, lane_base, lane_top, lanes_above, last_row, lowered, number, over, place, row_if, row_of, shifted, shown, shows, step, threads_height, top, total_width, under, width};

use crate::folds::{Column, place_from};
use std::marker::Model;

/// What is drawn: the ticks from `from` to `to`, so many pixels each, but for those that are folded; a row for each processor, and one
/// for each of the threads `rows`, in this order, for which there is room for so many. Under each of these rows are so many `lanes` for
/// the locks that the thread holds; `sets` says whether there are processor sets, of which notes tell under the rows of processors.
#[derive(Drop)]
pub struct Layout {
    pub from: u32,
    pub to: u32,
    pub cpus: u16,
    pub threads: u16,
    pub rows: Vec<usize>,
    pub lanes: Vec<u16>,
    pub sets: bool,
    pub scale: u8,
    pub folds: Vec<Column>,
}

impl Model for Layout {
    ghost Value = { LayoutValue };

    ghost view = { λ f. record { from = f.from; to = f.to; cpus = f.cpus; threads = f.threads; rows = f.rows.items; lanes = f.lanes.items; sets = f.sets; scale = f.scale; folds = f.folds.items } };

    ghost invariant = { λ f. length f.folds.items ≤ 1000 };
}

/// The row of a processor or of a thread, by its number.
#[derive(Clone, Copy)]
pub enum Row {
    Cpu(u16),
    Thread(u16),
}

// The room in front of a row for the numbers of the axis, which stand after every 40 rows.
fn gap(n: u32) -> u64
    ensures value { result ≡ gap n }
    ensures bound { result < 2 ^ 40 }
{
    18 * (u64::from(n) / 40)
}

fn sum_of(lanes: &[u16]) -> u64
    requires { length lanes.now < 2 ^ 32 }
    ensures value { result ≡ sum lanes.now }
    ensures bound { result < 2 ^ 48 }
{
    let mut sum: u64 = 0;
    for x in lanes {
        sum += u64::from(*x);
    }
    sum
}

// How many lanes the first rows have.
fn first_lanes(lanes: &[u16], rows: u32) -> u64
    ensures value { result ≡ sum (take rows lanes.now) }
    ensures bound { result < 2 ^ 48 }
{
    let count = rows as usize;
    if count < lanes.len() {
        sum_of(&lanes[..count])
    } else {
        sum_of(lanes)
    }
}

// A fold lies so near a tick, or nearer.
fn is_near(room: u32, tick: u32, x: &Column) -> bool
    ensures { result ≡ is_near room tick x.now }
{
    u64::from(x.from) <= u64::from(tick) + u64::from(room)
        && u64::from(tick) <= u64::from(x.to) + u64::from(room)
}

fn any_near(room: u32, tick: u32, folds: &[Column]) -> bool
    ensures { result ≡ list_any (is_near room tick) folds.now }
{
    folds.iter().any(|x| is_near(room, tick, x))
}

// The tick that is so many behind the first.
fn tick_of(from: u32, to: u32, n: u32) -> u32
    requires { n ≤ to - from }
    ensures { result ≡ from + n }
{
    from + n
}

impl Layout {
    /// How many ticks are drawn.
    pub fn shown(&self) -> u32
        ensures { result ≡ shown self.now }
    {
        self.to.saturating_sub(self.from)
    }

    /// The tick that is so many behind the first one.
    pub fn tick(&self, n: u32) -> u32
        requires { n ≤ shown self.now }
        ensures { result ≡ self.now.from + n }
    {
        tick_of(self.from, self.to, n)
    }

    /// How many ticks lie between the numbers of the axis.
    pub fn step(&self) -> u32
        ensures value { result ≡ step self.now }
        ensures some { 0 < result }
        ensures bound { result < 51 }
    {
        if 50 <= self.scale {
            1
        } else if 25 <= self.scale {
            2
        } else if 10 <= self.scale {
            5
        } else if 5 <= self.scale {
            10
        } else if 3 <= self.scale {
            20
        } else {
            50
        }
    }

    // How far a tick lies from the first one that is drawn; one that is not drawn lies at the nearer edge.
    fn place(&self, tick: u32) -> u64
        ensures value { result ≡ place self.now tick }
        ensures bound { result < 2 ^ 52 }
    {
        place_from(
            self.scale,
            self.from,
            tick.max(self.from).min(self.to),
            &self.folds,
        )
    }

    /// Where a tick begins, from the left.
    pub fn column(&self, tick: u32) -> u64
        ensures { result ≡ column self.now tick }
    {
        150 + self.place(tick)
    }

    /// How long the part that is drawn of the ticks from `from` to `to` is.
    pub fn width(&self, from: u32, to: u32) -> u64
        ensures { result ≡ width self.now from to }
    {
        self.place(to).saturating_sub(self.place(from))
    }

    /// Where the ground of a word begins that stands on a bar that begins with a tick.
    pub fn inside(&self, tick: u32) -> u64
        ensures { result ≡ inside self.now tick }
    {
        153 + self.place(tick)
    }

    /// Where words begin that tell of what begins with a tick: beside a line that may end there.
    pub fn beside(&self, tick: u32) -> u64
        ensures { result ≡ beside self.now tick }
    {
        156 + self.place(tick)
    }

    /// A number of the axis has room where no fold lies near it.
    pub fn is_clear(&self, tick: u32) -> bool
        ensures { result ≡ is_clear self.now tick }
    {
        !any_near(self.step() / 3, tick, &self.folds)
    }

    // The number of a row among all rows.
    fn number(&self, row: Row) -> u32
        ensures { result ≡ number self.now row }
    {
        match row {
            Row::Cpu(c) => u32::from(c),
            Row::Thread(t) => u32::from(self.cpus) + u32::from(t),
        }
    }

    // The height of the row of a processor, with its notes.
    fn cpu_height(&self) -> u64
        ensures value { result ≡ cpu_height self.now }
        ensures bound { result < 41 }
    {
        if self.sets { 40 } else { 26 }
    }

    // How many lanes the first rows of threads have.
    fn lanes_above(&self, t: u32) -> u64
        ensures value { result ≡ lanes_above self.now t }
        ensures bound { result < 2 ^ 48 }
    {
        first_lanes(&self.lanes, t)
    }

    // The height of all rows of processors.
    fn cpus_height(&self) -> u64
        ensures value { result ≡ cpus_height self.now }
        ensures bound { result < 2 ^ 22 }
    {
        self.cpu_height() * u64::from(self.cpus)
    }

    // The height of so many rows of threads.
    fn threads_height(&self, t: u32) -> u64
        ensures value { result ≡ threads_height self.now t }
        ensures bound { result < 2 ^ 53 }
    {
        48 * u64::from(t) + 16 * self.lanes_above(t)
    }

    // How far a row lies below the first one.
    fn lowered(&self, row: Row) -> u64
        ensures value { result ≡ lowered self.now row }
        ensures bound { result < 2 ^ 54 }
    {
        let gap = gap(self.number(row));
        match row {
            Row::Cpu(c) => self.cpu_height() * u64::from(c) + gap,
            Row::Thread(t) => self.cpus_height() + self.threads_height(u32::from(t)) + gap,
        }
    }

    /// The top of the bars of a row.
    pub fn top(&self, row: Row) -> u64
        ensures value { result ≡ top self.now row }
        ensures bound { result < 2 ^ 55 }
    {
        match row {
            Row::Cpu(_) => 56 + self.lowered(row),
            Row::Thread(_) => 76 + self.lowered(row),
        }
    }

    /// The base line of the texts on the bars of a row.
    pub fn base(&self, row: Row) -> u64
        ensures { result ≡ base self.now row }
    {
        match row {
            Row::Cpu(_) => 69 + self.lowered(row),
            Row::Thread(_) => 89 + self.lowered(row),
        }
    }

    /// The lower edge of the bars of a row.
    pub fn floor(&self, row: Row) -> u64
        ensures { result ≡ floor self.now row }
    {
        match row {
            Row::Cpu(_) => 74 + self.lowered(row),
            Row::Thread(_) => 94 + self.lowered(row),
        }
    }

    /// From where to where a line across the bars of a row goes.
    pub fn across(&self, row: Row) -> (u64, u64)
        ensures { result ≡ across self.now row }
    {
        let lowered = self.lowered(row);
        match row {
            Row::Cpu(_) => (53 + lowered, 77 + lowered),
            Row::Thread(_) => (73 + lowered, 97 + lowered),
        }
    }

    /// The base line of the note under the name of a row.
    pub fn beneath(&self, row: Row) -> u64
        ensures value { result ≡ beneath self.now row }
        ensures bound { result < 2 ^ 55 }
    {
        match row {
            Row::Cpu(_) => 87 + self.lowered(row),
            Row::Thread(_) => 104 + self.lowered(row),
        }
    }

    // How many lanes are under the row of a thread.
    fn own_lanes(&self, t: u16) -> u64
        ensures value { result ≡ lanes_above self.now (t + 1) - lanes_above self.now t }
        ensures bound { result < 2 ^ 48 }
    {
        let t = u32::from(t);
        self.lanes_above(t + 1).saturating_sub(self.lanes_above(t))
    }

    /// The lower edge of the lanes of a thread.
    pub fn landing(&self, t: u16) -> u64
        ensures { result ≡ landing self.now t }
    {
        94 + self.lowered(Row::Thread(t)) + 16 * self.own_lanes(t)
    }

    /// The base line of the notes under a row, which is below the lanes of a thread.
    pub fn under(&self, row: Row) -> u64
        ensures { result ≡ under self.now row }
    {
        match row {
            Row::Cpu(_) => self.beneath(row),
            Row::Thread(t) => self.beneath(row) + 16 * self.own_lanes(t),
        }
    }

    /// The top of a lane under the row of a thread. There is room for eight.
    pub fn lane_top(&self, t: u16, lane: usize) -> u64
        ensures { result ≡ lane_top self.now t lane }
    {
        96 + self.lowered(Row::Thread(t)) + 16 * lane.min(7) as u64
    }

    /// The base line of the names on a lane.
    pub fn lane_base(&self, t: u16, lane: usize) -> u64
        ensures { result ≡ lane_base self.now t lane }
    {
        107 + self.lowered(Row::Thread(t)) + 16 * lane.min(7) as u64
    }

    /// The base line of the priorities of a thread, above its bars.
    pub fn above(&self, t: u16) -> u64
        ensures { result ≡ above self.now t }
    {
        71 + self.lowered(Row::Thread(t))
    }

    /// The top of the priorities of a thread.
    pub fn over(&self, t: u16) -> u64
        ensures value { result ≡ over self.now t }
        ensures bound { result < 2 ^ 55 }
    {
        60 + self.lowered(Row::Thread(t))
    }

    /// Where the arrow begins that is the one of this number, from 0, among those of a tick.
    pub fn shifted(&self, tick: u32, nth: u64) -> u64
        ensures { result ≡ shifted self.now tick nth }
    {
        150 + self.place(tick) + 5 * (nth % 8)
    }

    // The number of the last row.
    fn last_row(&self) -> u32
        ensures value { result ≡ last_row self.now }
        ensures bound { result < 2 ^ 17 }
    {
        (u32::from(self.cpus) + u32::from(self.threads)).saturating_sub(1)
    }

    /// How often the numbers of the axis stand between rows.
    pub fn axes(&self) -> u32
        ensures value { result ≡ axes self.now }
        ensures bound { result < 2 ^ 17 }
    {
        self.last_row() / 40
    }

    // The base line of the numbers of the axis in front of a row.
    fn between_rows(&self, n: u32) -> u64
        ensures { result ≡ between_rows self.now n }
    {
        let cpus = u32::from(self.cpus);
        if n < cpus {
            50 + self.cpu_height() * u64::from(n) + gap(n)
        } else {
            56 + self.cpus_height() + self.threads_height(n - cpus) + gap(n)
        }
    }

    /// The base line of the numbers of the axis in front of row 40, 80 and so on.
    pub fn axis_base(&self, k: u32) -> u64
        requires { k < 2 ^ 17 }
        ensures { result ≡ axis_base self.now k }
    {
        self.between_rows(40 * (k + 1))
    }

    /// The lower edge of the last row.
    pub fn bottom(&self) -> u64
        ensures value { result ≡ bottom self.now }
        ensures bound { result < 2 ^ 54 }
    {
        let rows = self.cpus_height() + self.threads_height(u32::from(self.threads));
        62 + rows + gap(self.last_row())
    }

    /// How far the last row reaches below the axis.
    pub fn depth(&self) -> u64
        ensures { result ≡ depth self.now }
    {
        self.bottom().saturating_sub(50)
    }

    /// The width of the picture.
    pub fn total_width(&self) -> u64
        ensures { result ≡ total_width self.now }
    {
        (280 + self.place(self.to)).max(1040)
    }

    /// Whether a tick is drawn, or ends what is drawn.
    pub fn shows(&self, tick: u32) -> bool
        ensures { result ≡ shows self.now tick }
    {
        self.from <= tick && tick <= self.to
    }

    fn position_of(&self, t: usize) -> Option<usize>
        ensures { result ≡ position (λ u. u == t) self.now.rows }
    {
        self.rows.iter().position(|u| *u == t)
    }

    /// The row of a thread has this number, if it has one for which there is room.
    #[tactic(auto, unfolding(crate::specs::Layouts::row_of))]
    pub fn row_of(&self, t: usize) -> Option<u16>
        ensures { result ≡ row_of self.now t }
    {
        match self.position_of(t) {
            Some(row) if row < usize::from(self.threads) => Some(row as u16),
            _ => None,
        }
    }
}
