//! The forms of the arguments.

ghost use Rattle.std.specs.Prelude.{◌≡◌, ◌↔◌, IsTrue, Some, map, string_bytes};
ghost use Rattle.sd_program.specs.declared.forms.Command.TheVariants.{Run};
ghost use Rattle.sd_program.specs.declared.forms.Form.TheVariants.{Journal};
ghost use Rattle.sd_program.specs.declared.forms.Mode.TheVariants.{Threads};
ghost use Rattle.sd_program.specs.Forms.{command_of, drawn_command, generate_command, mode_of, pair_command, seed_command, verb_command};
ghost use Rattle.sd_types.specs.Works.{same_bytes};

use sd_rounds::RoundOrder;
use sd_text::number;

/// How the processors of a run act.
#[derive(Clone, Copy)]
pub enum Mode {
    /// In rounds, in which they take these turns.
    Rounds(RoundOrder),
    /// Side by side, on threads of the host.
    Threads,
}

/// What is printed of a run.
#[derive(Clone, Copy)]
pub enum Form {
    /// The journal of the run in which the processors act so.
    Journal(Mode),
    /// The summary of the run in rounds of rising processors.
    Summary,
}

/// What the arguments ask for.
#[derive(Clone, Copy)]
pub enum Command {
    /// To run a workload.
    Run(Form),
    /// To write the dispatch tables of a workload.
    Tables,
    /// To write the generated workload of a number.
    Generate { number: u32 },
    /// To judge whether a journal is that of a complete run of its workload.
    Audit,
}

impl Form {
    /// How the processors act.
    pub(crate) fn mode(self) -> Mode
        ensures { result ≡ mode_of self }
    {
        match self {
            Form::Journal(mode) => mode,
            Form::Summary => Mode::Rounds(RoundOrder::Rising),
        }
    }
}

const RUN_RISING: Command = Command::Run(Form::Journal(Mode::Rounds(RoundOrder::Rising)));

const RUN_ON_THREADS: Command = Command::Run(Form::Journal(Mode::Threads));

fn is_word(text: &[u8], word: &[u8]) -> bool
    ensures { result ≡ same_bytes text.now word.now }
{
    text == word
}

fn verb_command(verb: &[u8]) -> Option<Command>
    ensures { result ≡ verb_command verb.now }
{
    if is_word(verb, b"run") {
        Some(RUN_RISING)
    } else if is_word(verb, b"sum") {
        Some(Command::Run(Form::Summary))
    } else if is_word(verb, b"tables") {
        Some(Command::Tables)
    } else if is_word(verb, b"audit") {
        Some(Command::Audit)
    } else {
        None
    }
}

fn generate_command(number: u64) -> Option<Command>
    ensures { result ≡ generate_command number }
{
    if number <= 4_294_967_295 {
        Some(Command::Generate {
            number: number as u32,
        })
    } else {
        None
    }
}

fn drawn_command(seed: u64) -> Option<Command>
    ensures { result ≡ drawn_command seed }
{
    if seed <= 4_294_967_295 {
        let orders = RoundOrder::Drawn { seed: seed as u32 };
        Some(Command::Run(Form::Journal(Mode::Rounds(orders))))
    } else {
        None
    }
}

fn pair_command(verb: &[u8], second: &[u8]) -> Option<Command>
    ensures { result ≡ pair_command verb.now second.now }
{
    if is_word(verb, b"run") && is_word(second, b"--threads") {
        Some(RUN_ON_THREADS)
    } else if is_word(verb, b"gen") {
        match number(second) {
            Some(number) => generate_command(number),
            None => None,
        }
    } else {
        None
    }
}

fn seed_command(verb: &[u8], second: &[u8], seed: &[u8]) -> Option<Command>
    ensures { result ≡ seed_command verb.now second.now seed.now }
{
    if is_word(verb, b"run") && is_word(second, b"--seed") {
        match number(seed) {
            Some(seed) => drawn_command(seed),
            None => None,
        }
    } else {
        None
    }
}

/// What the arguments ask for, None where they are of none of the forms.
#[tactic(auto, unfolding(crate::specs::Forms::command_of))]
pub(crate) fn command_of(arguments: &[String]) -> Option<Command>
    ensures { result ≡ command_of (map string_bytes arguments.now) }
{
    match arguments {
        [verb] => verb_command(verb.as_bytes()),
        [verb, second] => pair_command(verb.as_bytes(), second.as_bytes()),
        [verb, second, seed] => seed_command(verb.as_bytes(), second.as_bytes(), seed.as_bytes()),
        _ => None,
    }
}

/// They ask for a run whose processors act on threads of the host.
fn is_on_threads(command: Option<Command>) -> bool
    ensures { IsTrue result ↔ (command ≡ Some (Run (Journal Threads))) }
{
    match command {
        Some(Command::Run(Form::Journal(Mode::Threads))) => true,
        _ => false,
    }
}

/// The arguments ask for a run whose processors act on threads of the host.
pub(crate) fn ask_for_threads(arguments: &[String]) -> bool
    ensures { IsTrue result ↔ (command_of (map string_bytes arguments.now) ≡ Some (Run (Journal Threads))) }
{
    is_on_threads(command_of(arguments))
}
