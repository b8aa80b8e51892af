//! The rule of the table, and what each kind of step tells.

ghost use Rattle.std.specs.Prelude.{◌≡◌, ℕ, Option, Some, None, []};
ghost use Rattle.sd_types.specs.declared.works.Work.{Work as WorkOf};
ghost use Rattle.sd_types.specs.declared.events.Event.{Event as EventOf};
ghost use Rattle.sd_types.specs.declared.events.Event.TheVariants.{Idle};
ghost use Rattle.sd_types.specs.declared.events.Hints.{Hints as HintsOf};
ghost use Rattle.sd_types.specs.declared.events.Which.{Which as WhichOf};
ghost use Rattle.sd_types.specs.declared.events.Which.TheVariants.{Running};
ghost use Rattle.sd_shared_rule.specs.declared.views.View.TheVariants.{Gathers, Maker, Spent};
ghost use Rattle.sd_shared_rule.specs.Rule.{Kept};
ghost use Rattle.sd_shared_rule.specs.Plays.{Committed, Counted, Gave, Hinted, Looked, Published, Took, Wrote};
ghost use Rattle.sd_shared_table.specs.Intents.{gathers_more, maker_cut, maker_next, within};

use atomic_table::{Join, Play, Split, TableRule};
use sd_homes::Home;
use sd_shared_rule::View;
use sd_types::Work;
use std::marker::{Brand, PhantomData};

/// The rule that holds between any two steps.
pub struct Rule;

impl TableRule<Option<Home>, View, Work> for Rule {
    ghost holds = { Kept };

    ghost first = { λ w. Maker 0 };
}

/// What a step is about, which its operands do not say: the workload of the table; the event and its hints; the number of a thread or
/// of a processor; which hint. Each call picks it.
pub trait Intent {
    ghost about: { Option WorkOf };

    ghost event: { EventOf };

    ghost hints: { Option HintsOf };

    ghost number: { ℕ };

    ghost which: { WhichOf };
}

impl Intent for Brand {
    ghost about = { None };

    ghost event = { Idle };

    ghost hints = { None };

    ghost number = { 0 };

    ghost which = { Running };
}

pub(crate) struct Taking<I>(PhantomData<I>);

impl<I: Intent> Play<Option<Home>, View> for Taking<I> {
    ghost then = { λ st m n k. within I.about (λ w. Took w st m n k) };
}

pub(crate) struct Giving<I>(PhantomData<I>);

impl<I: Intent> Play<Option<Home>, View> for Giving<I> {
    ghost then = { λ st m n k. within I.about (λ w. Gave w st m n k) };
}

pub(crate) struct Looking<I>(PhantomData<I>);

impl<I: Intent> Play<Option<Home>, View> for Looking<I> {
    ghost then = { λ st m n k. within I.about (λ w. Looked w I.number st m n k) };
}

pub(crate) struct Naming<I>(PhantomData<I>);

impl<I: Intent> Play<Option<Home>, View> for Naming<I> {
    ghost then = { λ st m n k. within I.about (λ w. Published w I.number st m n k) };
}

pub(crate) struct Hinting<I>(PhantomData<I>);

impl<I: Intent> Play<Option<Home>, View> for Hinting<I> {
    ghost then = { λ st m n k. within I.about (λ w. Hinted w I.number I.which st m n k) };
}

pub(crate) struct Counting<I>(PhantomData<I>);

impl<I: Intent> Play<Option<Home>, View> for Counting<I> {
    ghost then = { λ st m n k. within I.about (λ w. Counted w I.number st m n k) };
}

pub(crate) struct Writing<I>(PhantomData<I>);

impl<I: Intent> Play<Option<Home>, View> for Writing<I> {
    ghost then = { λ st m n k. within I.about (λ w. Wrote w st m n k) };
}

pub(crate) struct Committing<I>(PhantomData<I>);

impl<I: Intent> Play<Option<Home>, View> for Committing<I> {
    ghost then = { λ st m n k. within I.about (λ w. Committed w I.event I.hints st m n k) };
}

/// The seat of the next processor is cut from the one that makes them.
pub(crate) struct Cutting;

impl Split<View> for Cutting {
    ghost left = { maker_next };

    ghost right = { maker_cut };
}

pub(crate) struct Sitting;

impl Play<Option<Home>, View> for Sitting {
    ghost then = { λ st m n k. k ≡ (Gathers [], []) };
}

/// The seat of a processor is taken back.
pub(crate) struct Gathering;

impl Join<View> for Gathering {
    ghost both = { gathers_more };

    ghost spent = { Spent };
}
