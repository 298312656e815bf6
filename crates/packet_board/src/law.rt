//! What a user of a board says: its law, and what it chooses and wants to learn at a step.
ghost use Rattle.std.specs.Prelude.{ℕ, List, Option, ⊤};
ghost use Rattle.packet_board.specs.declared.word.Word.{Word};
ghost use Rattle.packet_board.specs.declared.layout.Layout.{Layout};
ghost use Rattle.packet_board.specs.declared.buffer.Buffer.{Buffer};
ghost use Rattle.packet_board.specs.declared.view.View.{View};
ghost use Rattle.packet_board.specs.Laws.{Opens, Looks, Exchanges, Counts, Begins, Parts, Merges, Ends, Bounds};

use std::marker::Brand;

/// A law of a board: a fact about its words, the buffers that lie in their slots, and the views of all seats, together
/// with the proof that each kind of step keeps it. No value of it exists.
pub trait BoardLaw {
    /// What the law wants each seat to know beside its view.
    type Notes;

    /// The layouts that the law is for.
    ghost fits: { Layout → Type 0 };

    /// The notes of the first seat, of a seat that was split off, and of two seats that were joined.
    ghost first: { Layout → Self.Notes };

    ghost blank: { Self.Notes };

    ghost both: { Self.Notes → Self.Notes → Self.Notes };

    /// What holds between any two steps.
    ghost holds: { Layout → List Word → List (Option Buffer) → List (View Self.Notes) → Type 0 };

    /// Whether a seat with that view may exchange the word of a cell: the old word and the new one, the buffer that is given away, the one that is taken, and the seat's notes after.
    ghost allows: { View Self.Notes → ℕ → Word → Word → Option Buffer → Option Buffer → Self.Notes → Type 0 };

    /// Which seats may split and take another seat in.
    ghost splits: { View Self.Notes → Type 0 };

    ghost opens: { Opens holds fits first };

    ghost looks: { Looks holds };

    ghost exchanges: { Exchanges holds allows };

    ghost counts: { Counts holds };

    ghost begins: { Begins holds splits };

    ghost parts: { Parts holds splits blank };

    ghost merges: { Merges holds splits both blank };

    ghost ends: { Ends holds splits both };

    ghost bounds: { Bounds holds splits };
}

/// What the caller of a step chooses, and what it wants to learn from the law. It has no meaning at run time: a caller
/// passes `Brand`, and its proof picks the members.
pub trait Choice<N> {
    /// Of the view before an exchange, the buffer that it found behind the number that it took, and the notes after.
    ghost chooses: { View N → Option Buffer → N → Type 0 };

    /// Of the view before a step, and a word that was met there.
    ghost tells: { View N → Word → Type 0 };
}

impl<N> Choice<N> for Brand {
    ghost chooses = { λ v found notes. ⊤ };

    ghost tells = { λ v word. ⊤ };
}
