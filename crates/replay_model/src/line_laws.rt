//! What holds of the lines that are printed. The function here does nothing: its contract is the law.

ghost use Rattle.std.specs.Prelude.{List, ◌++◌, ℕ};
ghost use Rattle.replay_model.specs.Lines.{EndsLine, lines_of, lines_of_act};
ghost use Rattle.replay_model.specs.Record.{Act};

/// Whatever happens, whole lines are printed of it: nothing, or a text that ends with a newline.
pub fn acts_print_whole_lines()
    ensures act { (a : Act) → EndsLine (lines_of_act a) }
    ensures acts { (acts : List Act) → EndsLine (lines_of acts) }
    ensures joins { (these those : List ℕ) → EndsLine these → EndsLine those → EndsLine (these ++ those) }
{}
