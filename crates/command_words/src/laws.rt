//! Which words are taken, in their own terms. Each function here does nothing: its contract is the law.
ghost use Rattle.std.specs.Prelude.{◌≡◌, ℕ, List, Some, true, codes};
ghost use Rattle.clap.specs.Walk.{Text};
ghost use Rattle.command_words.specs.Spellings.{IsAlone, IsStorm};
ghost use Rattle.command_words.specs.Words.{IsInRange, are_taken, command_of};
ghost use Rattle.command_words.specs.declared.command.Command.{Command};
ghost use Rattle.command_words.specs.declared.command.Command.TheVariants as command;
ghost use Rattle.replay_model.specs.declared.options.StormOptions.{StormOptions};

/// A command without options is asked for by its name alone.
pub fn a_name_alone_asks_for_its_command()
    ensures replay { (words : List Text) → IsAlone (codes "replay") words → command_of words ≡ Some command.Replay }
    ensures stubs { (words : List Text) → IsAlone (codes "stubs") words → command_of words ≡ Some command.Stubs }
{}

/// Each spelling of both options of a storm is read, and gives their numbers.
pub fn each_spelling_of_a_storm_is_read()
    ensures { (words : List Text) (seed calls : ℕ) → IsStorm words seed calls
        → command_of words ≡ Some (command.Storm (record { seed = seed; calls = calls })) }
{}

/// Words that are taken ask for a command, and each command is asked for only by words that are spelled so, with
/// options in their ranges.
pub fn only_what_is_spelled_is_taken()
    ensures asks { (words : List Text) → are_taken words ≡ true → (asked : Command) × (command_of words ≡ Some asked) }
    ensures replay { (words : List Text) → command_of words ≡ Some command.Replay → IsAlone (codes "replay") words }
    ensures stubs { (words : List Text) → command_of words ≡ Some command.Stubs → IsAlone (codes "stubs") words }
    ensures storm { (words : List Text) (options : StormOptions) → command_of words ≡ Some (command.Storm options)
        → IsStorm words options.seed options.calls }
    ensures range { (words : List Text) (asked : Command) → command_of words ≡ Some asked → IsInRange asked }
{}
